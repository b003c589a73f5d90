//! Replies to the question for the addresses of ab: their records, and where they are cut.

use super::{address_of, says};
use message_walk::read_outline;
use std::alloc::Global;
use std::test::Fail;

/// The kind that is wanted if one is, the counts of answers, authorities and additionals, the bytes of their records, and
/// what the message says: whether an answer is wanted, and the upper bits of the response code. The
/// question's name stands at 12, and the records begin at 20.
type Row = (
    Option<u16>,
    [u8; 3],
    &'static [u8],
    Option<(bool, Option<u8>)>,
);

const REPLIES: [Row; 24] = [
    // no records
    (Some(1), [0, 0, 0], b"", Some((false, None))),
    // an address
    (
        Some(1),
        [1, 0, 0],
        b"\xc0\x0c\0\x01\0\x01\0\0\0\x3c\0\x04\xc0\0\x02\x01",
        Some((true, None)),
    ),
    // an address of another class
    (
        Some(1),
        [1, 0, 0],
        b"\xc0\x0c\0\x01\0\x03\0\0\0\x3c\0\x04\xc0\0\x02\x01",
        Some((false, None)),
    ),
    // an address of another class, where any answer is wanted
    (
        None,
        [1, 0, 0],
        b"\xc0\x0c\0\x01\0\x03\0\0\0\x3c\0\x04\xc0\0\x02\x01",
        Some((true, None)),
    ),
    // an authority
    (
        None,
        [0, 1, 0],
        b"\xc0\x0c\0\x02\0\x01\0\0\0\x3c\0\x02\xc0\x0c",
        Some((false, None)),
    ),
    // an alias and behind it an address
    (
        Some(1),
        [2, 0, 0],
        b"\xc0\x0c\0\x05\0\x01\0\0\0\x3c\0\x04\x01x\xc0\x0c\xc0\x20\0\x01\0\x01\0\0\0\x3c\0\x04\xc0\0\x02\x01",
        Some((true, None)),
    ),
    // an address of three bytes
    (
        None,
        [1, 0, 0],
        b"\xc0\x0c\0\x01\0\x01\0\0\0\x3c\0\x03\xc0\0\x02",
        None,
    ),
    // an alias with a byte behind its name
    (
        None,
        [1, 0, 0],
        b"\xc0\x0c\0\x05\0\x01\0\0\0\x3c\0\x03\xc0\x0c\0",
        None,
    ),
    // an alias whose name goes on behind its rdata
    (
        None,
        [1, 0, 0],
        b"\xc0\x0c\0\x05\0\x01\0\0\0\x3c\0\x01\x01x\0",
        None,
    ),
    // an alias without a name
    (
        None,
        [1, 0, 0],
        b"\xc0\x0c\0\x05\0\x01\0\0\0\x3c\0\x02\xc0\x40",
        None,
    ),
    // an IPv6 address
    (
        Some(28),
        [1, 0, 0],
        b"\xc0\x0c\0\x1c\0\x01\0\0\0\x3c\0\x10\x20\x01\x0d\xb8\0\0\0\0\0\0\0\0\0\0\0\x01",
        Some((true, None)),
    ),
    // the start of a zone
    (
        Some(6),
        [1, 0, 0],
        b"\xc0\x0c\0\x06\0\x01\0\0\0\x3c\0\x19\xc0\x0c\x01x\0\0\0\0\x01\0\0\0\x02\0\0\0\x03\0\0\0\x04\0\0\0\x05",
        Some((true, None)),
    ),
    // the start of a zone with a number less
    (
        Some(6),
        [1, 0, 0],
        b"\xc0\x0c\0\x06\0\x01\0\0\0\x3c\0\x15\xc0\x0c\x01x\0\0\0\0\x01\0\0\0\x02\0\0\0\x03\0\0\0\x04",
        None,
    ),
    // a host's two strings
    (
        Some(13),
        [1, 0, 0],
        b"\xc0\x0c\0\x0d\0\x01\0\0\0\x3c\0\x05\x01x\x02yz",
        Some((true, None)),
    ),
    // a host's one string
    (
        Some(13),
        [1, 0, 0],
        b"\xc0\x0c\0\x0d\0\x01\0\0\0\x3c\0\x02\x01x",
        None,
    ),
    // mail, a text and a service
    (
        Some(33),
        [3, 0, 0],
        b"\xc0\x0c\0\x0f\0\x01\0\0\0\x3c\0\x04\0\x0a\xc0\x0c\xc0\x0c\0\x10\0\x01\0\0\0\x3c\0\x03\x02hi\xc0\x0c\0\x21\0\x01\0\0\0\x3c\0\x08\0\x01\0\x02\0\x35\xc0\x0c",
        Some((true, None)),
    ),
    // a text that is cut
    (
        None,
        [1, 0, 0],
        b"\xc0\x0c\0\x10\0\x01\0\0\0\x3c\0\x02\x02h",
        None,
    ),
    // an OPT record
    (
        None,
        [0, 0, 1],
        b"\0\0\x29\x04\xd0\0\0\0\0\0\0",
        Some((false, Some(0))),
    ),
    // an OPT record between others, which extends the response code
    (
        None,
        [0, 0, 3],
        b"\xc0\x0c\0\x01\0\x01\0\0\0\x3c\0\x04\xc0\0\x02\x01\0\0\x29\x04\xd0\x01\0\x80\0\0\0\xc0\x0c\0\x01\0\x01\0\0\0\x3c\0\x04\xc0\0\x02\x01",
        Some((false, Some(1))),
    ),
    // an OPT record with two options
    (
        None,
        [0, 0, 1],
        b"\0\0\x29\x04\xd0\xff\0\0\0\0\x0a\0\x0a\0\x02xy\0\x0c\0\0",
        Some((false, Some(255))),
    ),
    // an OPT record whose second option is cut
    (
        None,
        [0, 0, 1],
        b"\0\0\x29\x04\xd0\0\0\0\0\0\x0a\0\x0a\0\x01x\0\x0c\0\x02y",
        None,
    ),
    // an OPT record whose option is cut
    (
        None,
        [0, 0, 1],
        b"\0\0\x29\x04\xd0\0\0\0\0\0\x05\0\x0a\0\x02x",
        None,
    ),
    // two OPT records
    (
        None,
        [0, 0, 2],
        b"\0\0\x29\x04\xd0\0\0\0\0\0\0\0\0\x29\x04\xd0\0\0\0\0\0\0",
        None,
    ),
    // two OPT records among the answers, which don't count
    (
        Some(41),
        [2, 0, 0],
        b"\0\0\x29\0\x01\0\0\0\0\0\0\0\0\x29\x04\xd0\0\0\0\0\0\0",
        Some((true, None)),
    ),
];

/// A reply with so many records of each section, whose bytes these are.
fn reply_with(alloc: Global, counts: [u8; 3], records: &[u8]) -> Result<Vec<u8>, Fail> {
    let [answers, authorities, additionals] = counts;
    let mut bytes = Vec::from_slice(
        alloc,
        &[
            0x12,
            0x34,
            0x80,
            0,
            0,
            1,
            0,
            answers,
            0,
            authorities,
            0,
            additionals,
        ],
    )?;
    bytes.extend_from_slice(b"\x02ab\0\0\x01\0\x01")?;
    bytes.extend_from_slice(records)?;
    Ok(bytes)
}

/// Whether the row's message says what the row does.
fn row_holds(alloc: Global, row: &Row) -> Result<bool, Fail> {
    let (wanted, counts, records, said) = *row;
    let asked = address_of(alloc, b"ab")?;
    let bytes = reply_with(alloc, counts, records)?;
    let expected = match said {
        Some((answered, extended)) => says(answered, extended),
        None => None,
    };
    Ok(read_outline(bytes.as_slice(), &asked, false, wanted) == expected)
}

#[test]
fn replies_say_what_their_records_say(rt: HostRuntime) -> Result<(), Fail> {
    for row in REPLIES.iter() {
        assert!(rt; row_holds(rt.alloc(), row)?);
    }
    Ok(())
}

/// A reply with one address, and an OPT record behind it.
const WHOLE: &[u8] =
    b"\xc0\x0c\0\x01\0\x01\0\0\0\x3c\0\x04\xc0\0\x02\x01\0\0\x29\x04\xd0\0\0\0\0\0\0";

// What is missing at the end, or stands there without being counted, makes it no message (RFC 1035, section 4.1).
#[test]
fn a_reply_is_read_whole_or_not_at_all(rt: HostRuntime) -> Result<(), Fail> {
    let alloc = rt.alloc();
    let asked = address_of(alloc, b"ab")?;
    let mut bytes = reply_with(alloc, [1, 0, 1], WHOLE)?;
    assert!(rt; read_outline(bytes.as_slice(), &asked, false, Some(1)) == says(true, Some(0)));
    for len in 0..bytes.len() {
        assert!(rt; read_outline(&bytes[..len], &asked, false, Some(1)).is_none());
    }
    bytes.push(0)?;
    assert!(rt; read_outline(bytes.as_slice(), &asked, false, Some(1)).is_none());
    Ok(())
}

// RFC 1035, section 4.1.1: the fifth and sixth bytes count the questions.
#[test]
fn a_reply_has_one_question(rt: HostRuntime) -> Result<(), Fail> {
    let alloc = rt.alloc();
    let asked = address_of(alloc, b"ab")?;
    let twice: &[u8] = b"\x12\x34\x80\0\0\x02\0\0\0\0\0\0\x02ab\0\0\x01\0\x01\xc0\x0c\0\x01\0\x01";
    assert!(rt; read_outline(twice, &asked, false, None).is_none());
    let none: &[u8] = b"\x12\x34\x80\0\0\0\0\0\0\0\0\0";
    assert!(rt; read_outline(none, &asked, false, None).is_none());
    Ok(())
}
