//! Addresses as bytes, the highest first, and families as numbers.

ghost use Rattle.std.specs.Prelude.{◌≡◌, Some, length, min, option_map, slice_get};
ghost use Rattle.c_types.specs.Addresses as meaning;
ghost use Rattle.c_types.specs.Laid.{laid_over};

use crate::laying::lay;
use byteorder::{BigEndian, ByteOrder};
use net_addr::{Addr, Family};

/// The address of four or sixteen bytes.
pub fn address_in(bytes: &[u8]) -> Option<Addr>
    ensures { result ≡ meaning.address_in bytes.now }
{
    match bytes.len() {
        4 => Some(Addr::V4(BigEndian::read_u32(bytes))),
        16 => Some(Addr::V6(BigEndian::read_u128(bytes))),
        _ => None,
    }
}

/// The family of this number: 4 and 6 for one version of IP alone, and 0 for both.
pub fn family_of(number: u32) -> Option<Family>
    ensures { result ≡ meaning.family_of number }
{
    match number {
        0 => Some(Family::Any),
        4 => Some(Family::V4),
        6 => Some(Family::V6),
        _ => None,
    }
}

/// Lays the bytes of an address over the buffer.
pub fn lay_address(address: Addr, out: &mut [u8]) -> usize
    ensures count { result ≡ min (length (meaning.address_bytes address)) (length out.old) }
    ensures laid { out.new ≡ laid_over (meaning.address_bytes address) out.old }
{
    match address {
        Addr::V4(number) => lay(&number.to_be_bytes(), out),
        Addr::V6(number) => lay(&number.to_be_bytes(), out),
    }
}

/// Lays the bytes of the address at the index over the buffer, if there is one.
pub fn lay_at(index: usize, addresses: &[Addr], out: &mut [u8]) -> usize
    ensures count { result ≡ min (length (meaning.bytes_at index addresses.now)) (length out.old) }
    ensures laid { out.new ≡ laid_over (meaning.bytes_at index addresses.now) out.old }
{
    match addresses.get(index) {
        Some(address) => lay_address(*address, out),
        None => lay(&[], out),
    }
}
