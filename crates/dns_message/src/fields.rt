//! The fields that messages are made of, read and written: numbers, the highest byte first (RFC 1035, section 2.3.2),
//! and names without pointers.

ghost use Rattle.std.specs.Prelude.{◌≡◌, ◌+◌, ◌≤◌, ◌++◌, length, Ok, Err, IfOk, OnOk, MatchResult};
ghost use Rattle.byteorder.specs.Endian.{big_bytes, big_from};
ghost use Rattle.dns_message.specs.Reading.{part_of};
ghost use Rattle.dns_message.specs.Name.{IsName};
ghost use Rattle.dns_message.specs.Spelling.{name_bytes};

use crate::fault::MessageFault;
use crate::name::Name;
use byteorder::{BigEndian, ByteOrder};
use item_list::NoMemory;

/// The part of `len` bytes at an offset.
pub(crate) fn part_at(bytes: &[u8], at: usize, len: usize) -> Result<&[u8], MessageFault>
    requires { at ≤ length bytes.now }
    ensures read { MatchResult result
        (λ part. part_of bytes.now at len ≡ Ok part.now)
        (λ fault. part_of bytes.now at len ≡ Err fault) }
    ensures len { IfOk result (λ part. length part.now ≡ len) }
    ensures within { IfOk result (λ part. at + len ≤ length bytes.now) }
{
    if bytes.len() - at < len {
        return Err(MessageFault::ShortPart(at as u64));
    }
    Ok(&bytes[at..at + len])
}

/// The number of 16 bits at an offset of a part.
pub(crate) fn u16_in(part: &[u8], at: usize) -> u16
    requires { at + 2 ≤ length part.now }
    ensures { result ≡ big_from at 2 part.now }
{
    BigEndian::read_u16(&part[at..])
}

/// The number of 32 bits at an offset of a part.
pub(crate) fn u32_in(part: &[u8], at: usize) -> u32
    requires { at + 4 ≤ length part.now }
    ensures { result ≡ big_from at 4 part.now }
{
    BigEndian::read_u32(&part[at..])
}

/// Writes a number of 16 bits.
pub(crate) fn put_u16(out: &mut Vec<u8>, number: u16) -> Result<(), NoMemory>
    ensures { OnOk result (out.new.items ≡ out.old.items ++ big_bytes 2 number) }
{
    let mut bytes = [0; 2];
    BigEndian::write_u16(&mut bytes, number);
    out.extend_from_slice(&bytes)?;
    Ok(())
}

/// Writes a number of 32 bits.
pub(crate) fn put_u32(out: &mut Vec<u8>, number: u32) -> Result<(), NoMemory>
    ensures { OnOk result (out.new.items ≡ out.old.items ++ big_bytes 4 number) }
{
    let mut bytes = [0; 4];
    BigEndian::write_u32(&mut bytes, number);
    out.extend_from_slice(&bytes)?;
    Ok(())
}

/// Writes a name without pointers: before each label its length, and a zero byte at the end.
pub(crate) fn put_name(out: &mut Vec<u8>, name: &Name) -> Result<(), NoMemory>
    ensures put { OnOk result (out.new.items ≡ out.old.items ++ name_bytes name.now) }
    ensures name { IsName name.now }
{
    out.extend_from_slice(name.as_wire())?;
    out.push(0)?;
    Ok(())
}
