//! Families of addresses, and IPv4 addresses inside IPv6 (RFC 4291, section 2.5.5.2).
ghost use Rattle.std.specs.Prelude.{◌≡◌};
ghost use Rattle.net_addr.specs.Mapped.{allows as family_allows, mapped as mapped_of, is_mapped as mapped_test};

use crate::addr::{Addr, Family};

/// The 96 bits that a mapped address begins with, those of ::ffff:0:0/96.
const MAPPED: u128 = 0xffff;

/// Whether an address is of the family.
pub fn allows(family: Family, address: Addr) -> bool
    ensures { result ≡ family_allows family address }
{
    match (family, address) {
        (Family::Any, _) | (Family::V4, Addr::V4(_)) | (Family::V6, Addr::V6(_)) => true,
        (Family::V4, Addr::V6(_)) | (Family::V6, Addr::V4(_)) => false,
    }
}

/// The address as an IPv6 address: an IPv4 address as ::ffff:0:0/96 with the address, an IPv6 address as it is.
pub fn mapped(address: Addr) -> u128
    ensures { result ≡ mapped_of address }
{
    match address {
        Addr::V4(bits) => (MAPPED << 32) + u128::from(bits),
        Addr::V6(bits) => bits,
    }
}

/// Whether the address is an IPv6 address in ::ffff:0:0/96.
pub fn is_mapped(address: Addr) -> bool
    ensures { result ≡ mapped_test address }
{
    match address {
        Addr::V4(_) => false,
        Addr::V6(bits) => bits >> 32 == MAPPED,
    }
}
