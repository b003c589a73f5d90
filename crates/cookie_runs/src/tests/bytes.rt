//! Queries and replies with an OPT record, byte by byte (RFC 1035, section 4.1; RFC 6891, section 6.1.2).

use dns_message::{Bytes, NoMemory};
use std::alloc::Global;

/// The header of a query with identifier 0x1234, which asks for recursion, and its question for the address of example.com.
pub const QUERY_FRONT: &[u8; 29] =
    b"\x12\x34\x01\0\0\x01\0\0\0\0\0\x01\x07example\x03com\0\0\x01\0\x01";

/// The same of a reply without an error.
pub const REPLY_FRONT: &[u8; 29] =
    b"\x12\x34\x81\x80\0\x01\0\0\0\0\0\x01\x07example\x03com\0\0\x01\0\x01";

/// The same of a reply with the lower four bits of BADCOOKIE, 23 (RFC 7873, section 8).
pub const BAD_FRONT: &[u8; 29] =
    b"\x12\x34\x81\x87\0\x01\0\0\0\0\0\x01\x07example\x03com\0\0\x01\0\x01";

/// The front of a message, and behind it an OPT record of size 1232 with these upper bits of the response code and these
/// options, which are spelled so.
pub fn with_opt(
    alloc: Global,
    front: &[u8],
    ext_rcode: u8,
    options: &[u8],
) -> Result<Bytes, NoMemory> {
    let mut out = Vec::from_slice(alloc, front)?;
    out.extend_from_slice(b"\0\0\x29\x04\xd0")?;
    out.extend_from_slice(&[ext_rcode, 0, 0, 0])?;
    out.extend_from_slice(&((options.len() % 65_536) as u16).to_be_bytes())?;
    out.extend_from_slice(options)?;
    Ok(Bytes::from_vec(out))
}

/// An option of this code on the wire.
pub fn option(alloc: Global, code: u16, content: &[u8]) -> Result<Bytes, NoMemory> {
    let mut out = Vec::from_slice(alloc, &code.to_be_bytes())?;
    out.extend_from_slice(&((content.len() % 65_536) as u16).to_be_bytes())?;
    out.extend_from_slice(content)?;
    Ok(Bytes::from_vec(out))
}
