//! The parts of a message that have a fixed place: so many bytes, and numbers, the highest byte first (RFC 1035, section 2.3.2).

ghost use Rattle.std.specs.Prelude.{◌≡◌, ◌+◌, ◌≤◌, ◌≢◌, length, Ok, Err, IfErr, IfOk, MatchResult};
ghost use Rattle.byteorder.specs.Endian.{big_from};
ghost use Rattle.dns_message.specs.Reading.{part_of};

use byteorder::{BigEndian, ByteOrder};
use dns_message::MessageFault;

/// The part of `len` bytes at an offset.
pub fn part_at(bytes: &[u8], at: usize, len: usize) -> Result<&[u8], MessageFault>
    requires { at ≤ length bytes.now }
    ensures read { MatchResult result
        (λ part. part_of bytes.now at len ≡ Ok part.now)
        (λ fault. part_of bytes.now at len ≡ Err fault) }
    ensures memory { IfErr result (λ fault. fault ≢ MessageFault.NoMemory) }
    ensures len { IfOk result (λ part. length part.now ≡ len) }
    ensures within { IfOk result (λ part. at + len ≤ length bytes.now) }
{
    if bytes.len() - at < len {
        return Err(MessageFault::ShortPart(at as u64));
    }
    Ok(&bytes[at..at + len])
}

/// The number of 16 bits at an offset.
pub fn u16_in(part: &[u8], at: usize) -> u16
    requires { at + 2 ≤ length part.now }
    ensures { result ≡ big_from at 2 part.now }
{
    BigEndian::read_u16(&part[at..])
}

/// The number of 32 bits at an offset.
pub fn u32_in(part: &[u8], at: usize) -> u32
    requires { at + 4 ≤ length part.now }
    ensures { result ≡ big_from at 4 part.now }
{
    BigEndian::read_u32(&part[at..])
}
