//! Shapes of rdata.
use super::answer_of;
use dns_message::{Bytes, Message, MessageFault, Name, Record, decode, encode};
use std::alloc::Global;
use std::test::Fail;

/// A message without questions and with one record behind the root, of these kind, class and rdata.
fn with_rdata(alloc: Global, kind: u8, class: u8, rdata: &[u8]) -> Result<Vec<u8>, Fail> {
    let header = [0, 0, 0x80, 0, 0, 1, 0, 1, 0, 0, 0, 0];
    let mut bytes = Vec::from_slice(alloc, &header)?;
    bytes.extend_from_slice(b"\x01a\0\0\x01\0\x01")?;
    bytes.extend_from_slice(&[0, 0, kind, 0, class, 0, 0, 0, 0, 0])?;
    bytes.push(rdata.len().min(255) as u8)?;
    bytes.extend_from_slice(rdata)?;
    Ok(bytes)
}

/// Whether the message is one answer, which has this rdata.
fn has_alone(message: &Message, rdata: &[u8]) -> bool {
    match message.answers.as_slice() {
        [found] => message.valid() && found.rdata.as_slice() == rdata,
        _ => false,
    }
}

/// Whether the record of a message has this rdata, also written and read once more, or can't be read where there is none.
fn is_read_so(alloc: Global, bytes: &[u8], expanded: Option<&[u8]>) -> Result<bool, Fail> {
    Ok(match (decode(alloc, bytes), expanded) {
        (Ok(message), Some(expanded)) => {
            let again = decode(alloc, encode(alloc, &message)?.as_slice())?;
            has_alone(&message, expanded) && has_alone(&again, expanded)
        }
        (Err(fault), None) => fault == MessageFault::BadRdata(30),
        _ => false,
    })
}

/// The kind, the class, the rdata, and the rdata with its names expanded; none where it hasn't the shape.
/// The name at offset 12 is `a.`, so that a name of 253 bytes before a pointer to it has 256.
const SHAPES: [(u8, u8, &[u8], Option<&[u8]>); 35] = [
    (1, 1, b"abcd", Some(b"abcd")),
    (1, 1, b"abc", None),
    (1, 3, b"abc", Some(b"abc")),
    (28, 1, b"0123456789abcdef", Some(b"0123456789abcdef")),
    (28, 1, b"", None),
    (2, 1, b"\xc0\x0c", Some(b"\x01a\0")),
    (5, 3, b"\x01b\xc0\x0c", Some(b"\x01b\x01a\0")),
    (12, 1, b"\0", Some(b"\0")),
    (12, 1, b"\0\0", None),
    (12, 1, b"\x01b", None),
    (5, 1, b"\xc0\x1e", None),
    (2, 1, b"\x40", None),
    (
        2,
        1,
        b"\x3faaaaaaaaaaaaaaaaaaaaaaaaaaaaaaaaaaaaaaaaaaaaaaaaaaaaaaaaaaaaaaa\x3faaaaaaaaaaaaaaaaaaaaaaaaaaaaaaaaaaaaaaaaaaaaaaaaaaaaaaaaaaaaaaa\x3faaaaaaaaaaaaaaaaaaaaaaaaaaaaaaaaaaaaaaaaaaaaaaaaaaaaaaaaaaaaaaa\x3caaaaaaaaaaaaaaaaaaaaaaaaaaaaaaaaaaaaaaaaaaaaaaaaaaaaaaaaaaaa\xc0\x0c",
        None,
    ),
    (5, 1, b"", None),
    (
        6,
        1,
        b"\x01b\xc0\x0c\xc0\x0c0123456789abcdefghij",
        Some(b"\x01b\x01a\0\x01a\x000123456789abcdefghij"),
    ),
    (13, 1, b"\x01a\x00", Some(b"\x01a\x00")),
    (13, 1, b"\x01a", None),
    (15, 1, b"\0\x05\xc0\x0c", Some(b"\0\x05\x01a\0")),
    (15, 1, b"\0", None),
    (16, 1, b"", Some(b"")),
    (16, 1, b"\x02ab\0", Some(b"\x02ab\0")),
    (16, 1, b"\x02a", None),
    (33, 1, b"123456\xc0\x0c", Some(b"123456\x01a\0")),
    (33, 1, b"123456", None),
    (33, 4, b"123456", Some(b"123456")),
    (99, 1, b"\xc0\x0c", Some(b"\xc0\x0c")),
    (1, 1, b"", None),
    (5, 1, b"\x01b\xc0\x1e", None),
    (6, 1, b"\xc0\x0c\x04root", None),
    (6, 1, b"\xc0\x0c\xc0\x0c0123456789abcdefghi", None),
    (6, 1, b"\xc0\x0c\xc0\x0c0123456789abcdefghijk", None),
    (12, 1, b"\x01b\xc0", None),
    (13, 1, b"\x01a\x01b\0", None),
    (15, 1, b"\0\x05", None),
    (28, 1, b"0123456789abcdefg", None),
];

#[test]
fn shapes_of_rdata(rt: HostRuntime) -> Result<(), Fail> {
    for (kind, class, rdata, expanded) in SHAPES.iter() {
        let bytes = with_rdata(rt.alloc(), *kind, *class, *rdata)?;
        assert!(rt; is_read_so(rt.alloc(), bytes.as_slice(), *expanded)?);
    }
    Ok(())
}

/// The kind, the class, the rdata that is held, and whether it has the shape, by hand after RFC 1035, section 3.3.
const HELD: [(u8, u8, &[u8], bool); 14] = [
    (1, 1, b"abcd", true),
    (1, 1, b"abc", false),
    (1, 3, b"abc", true),
    (2, 1, b"\x01a\0", true),
    (2, 1, b"\xc0\x0c", false),
    (5, 3, b"\x01b\xc0\x0c", false),
    (12, 1, b"\x01b", false),
    (12, 1, b"\0\0", false),
    (6, 1, b"\x01b\0\x01a\x000123456789abcdefghij", true),
    (6, 1, b"\x01b\0\x01a\x000123456789abcdefghi", false),
    (13, 1, b"\x01a", false),
    (15, 1, b"\0\x05\0", true),
    (33, 1, b"123456", false),
    (99, 1, b"\xc0\x0c", true),
];

/// A message whose one answer is a record of the root.
fn held(alloc: Global, kind: u8, class: u8, rdata: &[u8]) -> Result<Message, Fail> {
    answer_of(
        alloc,
        Record {
            name: Name::root(alloc),
            kind: kind as u16,
            class: class as u16,
            ttl: 0,
            rdata: Bytes::of(alloc, rdata)?,
        },
    )
}

#[test]
fn rdata_that_is_held(rt: HostRuntime) -> Result<(), Fail> {
    for (kind, class, rdata, fits) in HELD.iter() {
        assert!(rt; held(rt.alloc(), *kind, *class, *rdata)?.valid() == *fits);
    }
    Ok(())
}
