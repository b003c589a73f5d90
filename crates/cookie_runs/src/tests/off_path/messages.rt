//! Queries and replies, byte by byte (RFC 1035, section 4.1; RFC 6891, section 6.1.2; RFC 7873, section 4).

use item_list::NoMemory;
use std::alloc::Global;

/// A query for the address of example.com, behind its identifier: it has an OPT record without options.
const QUERY: &[u8] =
    b"\x01\0\0\x01\0\0\0\0\0\x01\x07example\x03com\0\0\x01\0\x01\0\0\x29\x04\xd0\0\0\0\0\0\0";

/// Where a query has its client cookie, which is its last option.
const COOKIE_AT: usize = 44;

/// A reply to it behind its identifier, up to its address.
const REPLY: &[u8] =
    b"\x81\x80\0\x01\0\x01\0\0\0\x01\x07example\x03com\0\0\x01\0\x01\xc0\x0c\0\x01\0\x01\0\0\x01\x2c\0\x04";

/// Where a reply has its address.
const ADDRESS_AT: usize = 41;

/// An OPT record, up to the length of its options.
const OPT: &[u8] = b"\0\0\x29\x04\xd0\0\0\0\0";

/// The server cookie that the server gives.
pub const SERVER_COOKIE: &[u8] = b"\xf1\xf2\xf3\xf4\xf5\xf6\xf7\xf8";

/// The address of good replies, and the one of forged replies.
pub const GOOD_ADDRESS: &[u8] = b"\xc0\0\x02\x01";

pub const FORGED_ADDRESS: &[u8] = b"\xcb\0\x71\x09";

/// The query with this identifier.
pub fn query(alloc: Global, id: u16) -> Result<Vec<u8>, NoMemory> {
    let mut out = Vec::from_slice(alloc, &id.to_be_bytes())?;
    out.extend_from_slice(QUERY)?;
    Ok(out)
}

/// The client cookie of a query that came.
pub fn client_cookie(query: &[u8]) -> Option<&[u8]> {
    query.get(COOKIE_AT..)?.get(..8)
}

/// A reply with this identifier and address, and these bytes as the options of its OPT record.
pub fn reply(alloc: Global, id: u16, address: &[u8], options: &[u8]) -> Result<Vec<u8>, NoMemory> {
    let mut out = Vec::from_slice(alloc, &id.to_be_bytes())?;
    out.extend_from_slice(REPLY)?;
    out.extend_from_slice(address)?;
    out.extend_from_slice(OPT)?;
    out.extend_from_slice(&((options.len() % 65_536) as u16).to_be_bytes())?;
    out.extend_from_slice(options)?;
    Ok(out)
}

/// The cookie option with these two parts.
pub fn cookie_option(alloc: Global, client: &[u8], server: &[u8]) -> Result<Vec<u8>, NoMemory> {
    let len = client.len().saturating_add(server.len());
    let mut out = Vec::from_slice(alloc, b"\0\x0a")?;
    out.extend_from_slice(&((len % 65_536) as u16).to_be_bytes())?;
    out.extend_from_slice(client)?;
    out.extend_from_slice(server)?;
    Ok(out)
}

/// Whether a reply has this address.
pub fn has_address(reply: &[u8], address: &[u8]) -> bool {
    match reply.get(ADDRESS_AT..) {
        Some(rest) => rest.starts_with(address),
        None => false,
    }
}
