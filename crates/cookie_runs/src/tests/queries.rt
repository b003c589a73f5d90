//! Which query carries a cookie, and how it stands on the wire.

use super::bytes::{QUERY_FRONT, option, with_opt};
use dns_cookie::cookied;
use dns_message::Bytes;
use std::alloc::Global;
use std::test::Fail;

/// A client cookie.
const CLIENT: &[u8; 8] = b"\x01\x02\x03\x04\x05\x06\x07\x08";

/// A client cookie and a server cookie of 8 bytes.
const BOTH: &[u8; 16] = b"\x01\x02\x03\x04\x05\x06\x07\x08\xf1\xf2\xf3\xf4\xf5\xf6\xf7\xf8";

/// A query with these options, as it is sent with this cookie.
fn sent_with(alloc: Global, options: &[u8], cookie: &[u8]) -> Result<Bytes, Fail> {
    let query = with_opt(alloc, QUERY_FRONT.as_slice(), 0, options)?;
    Ok(cookied(alloc, query.as_slice(), cookie)?.unwrap_or(query))
}

/// Whether a query without options is sent with this cookie so long, and ends so.
fn carries(alloc: Global, cookie: &[u8], len: usize, end: &[u8]) -> Result<bool, Fail> {
    let sent = sent_with(alloc, b"", cookie)?;
    Ok(
        sent.len() == len
            && sent.as_slice().starts_with(QUERY_FRONT.as_slice())
            && sent.as_slice().ends_with(end),
    )
}

/// How it ends with a client cookie, from the OPT record on, and with a server cookie, from the length of the options on.
const CLIENT_END: &[u8] =
    b"\0\0\x29\x04\xd0\0\0\0\0\0\x0c\0\x0a\0\x08\x01\x02\x03\x04\x05\x06\x07\x08";

const BOTH_END: &[u8] =
    b"\x14\0\x0a\0\x10\x01\x02\x03\x04\x05\x06\x07\x08\xf1\xf2\xf3\xf4\xf5\xf6\xf7\xf8";

// The query's OPT record has the cookie option of RFC 7873, section 4, and the message 52 bytes, or 60 with a server cookie.
#[test]
fn a_query_carries_its_cookie(rt: HostRuntime) -> Result<(), Fail> {
    assert!(rt; carries(rt.alloc(), CLIENT.as_slice(), 52, CLIENT_END)?);
    assert!(rt; carries(rt.alloc(), BOTH.as_slice(), 60, BOTH_END)?);
    Ok(())
}

/// The end of a query with another option, from the length of the options on.
const LAST: &[u8] = b"\0\x10\0\x03\0\0\0\x0a\0\x08\x01\x02\x03\x04\x05\x06\x07\x08";

/// Whether a query with another option is sent so.
fn stands_last(alloc: Global) -> Result<bool, Fail> {
    let sent = sent_with(alloc, b"\0\x03\0\0", CLIENT.as_slice())?;
    Ok(sent.as_slice().ends_with(LAST))
}

// The cookie stands behind another option (here NSID, code 3, of RFC 5001), and another record keeps its place.
#[test]
fn a_cookie_stands_last(rt: HostRuntime) -> Result<(), Fail> {
    assert!(rt; stands_last(rt.alloc())?);
    Ok(())
}

/// A message without an OPT record, one with two, one whose options are cut, and bytes that are no message.
const OTHERS: &[&[u8]] = &[
    b"\x12\x34\x01\0\0\x01\0\0\0\0\0\0\x07example\x03com\0\0\x01\0\x01",
    b"\x12\x34\x01\0\0\0\0\0\0\0\0\x02\0\0\x29\x04\xd0\0\0\0\0\0\0\0\0\x29\x04\xd0\0\0\0\0\0\0",
    b"\x12\x34\x01\0\0\x01\0\0\0\0\0\x01\x07example\x03com\0\0\x01\0\x01\0\0\x29\x04\xd0\0\0\0\0\0\x03\0\x03\0",
    b"\x12\x34",
];

/// Whether these bytes go as they are.
fn goes_as_it_is(alloc: Global, bytes: &[u8]) -> Result<bool, Fail> {
    Ok(cookied(alloc, bytes, CLIENT.as_slice())?.is_none())
}

/// Whether each of those does.
fn go_as_they_are(alloc: Global) -> Result<bool, Fail> {
    for bytes in OTHERS {
        if !goes_as_it_is(alloc, bytes)? {
            return Ok(false);
        }
    }
    Ok(true)
}

#[test]
fn other_bytes_go_as_they_are(rt: HostRuntime) -> Result<(), Fail> {
    assert!(rt; go_as_they_are(rt.alloc())?);
    Ok(())
}

/// A query with so many bytes of padding (code 12, RFC 7830), behind 44 bytes of its own.
fn padded_query(alloc: Global, len: usize) -> Result<Bytes, Fail> {
    let content = Vec::from_elem(alloc, 0, len)?;
    let padding = option(alloc, 12, content.as_slice())?;
    Ok(with_opt(alloc, QUERY_FRONT.as_slice(), 0, padding.as_slice())?)
}

/// How many bytes are sent of a query with so many bytes of padding, which has so many itself; none where it goes as it is.
fn padded_sent(alloc: Global, len: usize, whole: usize) -> Result<usize, Fail> {
    let query = padded_query(alloc, len)?;
    if query.len() != whole {
        Err("the query is of another length")?;
    }
    match cookied(alloc, query.as_slice(), CLIENT.as_slice())? {
        Some(sent) => Ok(sent.len()),
        None => Ok(0),
    }
}

// With a padding option (code 12, RFC 7830) a query has 65,491 bytes, 44 less than a message may have: it carries a cookie.
// With one byte more it would have no room for one of 40 bytes, and goes as it is, though one of 8 would fit.
#[test]
fn the_longest_cookie_needs_room(rt: HostRuntime) -> Result<(), Fail> {
    assert_eq!(rt; padded_sent(rt.alloc(), 65_447, 65_491)?, 65_503);
    assert_eq!(rt; padded_sent(rt.alloc(), 65_448, 65_492)?, 0);
    Ok(())
}
