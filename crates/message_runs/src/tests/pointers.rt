//! Names of a message that are long, or go on at pointers.
use super::message_of;
use dns_message::{MessageFault, decode, name_end};
use std::alloc::Global;
use std::test::Fail;

/// How many questions the header counts, the bytes behind it, and the last question's name.
/// The second name goes on in the header, at the count of questions.
const READ: [(u8, &[u8], &[u8]); 4] = [
    (1, b"\x01a\0\0\x01\0\x01", b"a."),
    (1, b"\x01b\xc0\x05\0\x01\0\x01", b"b.\\000."),
    (2, b"\x01a\0\0\x01\0\x01\x01b\xc0\x0c\0\x01\0\x01", b"b.a."),
    (
        3,
        b"\x01a\0\0\x01\0\x01\x01b\xc0\x0c\0\x01\0\x01\xc0\x13\0\x01\0\x01",
        b"b.a.",
    ),
];

/// Whether the last question's name of so many questions and these bytes is printed so.
fn last_is(alloc: Global, questions: u8, rest: &[u8], printed: &[u8]) -> Result<bool, Fail> {
    let message = decode(alloc, message_of(alloc, questions, rest)?.as_slice())?;
    Ok(match message.questions.as_slice().last() {
        Some(question) => question.name.to_text(alloc)?.as_slice() == printed,
        None => false,
    })
}

#[test]
fn names_that_go_on_elsewhere(rt: HostRuntime) -> Result<(), Fail> {
    for (questions, rest, printed) in READ.iter() {
        assert!(rt; last_is(rt.alloc(), *questions, *rest, *printed)?);
    }
    Ok(())
}

/// A question whose name has labels of these lengths, and then the bytes.
fn long_question(alloc: Global, lengths: &[u8], rest: &[u8]) -> Result<Vec<u8>, Fail> {
    let mut bytes = message_of(alloc, 2, b"")?;
    for len in lengths {
        bytes.push(*len)?;
        for _ in 0..*len {
            bytes.push(b'a')?;
        }
    }
    bytes.extend_from_slice(rest)?;
    Ok(bytes)
}

/// The lengths of a first question's labels, the bytes behind them, and the first fault. The first name has 255 bytes,
/// the second 256; then the second question's name has 255 and 256 by a pointer to the first; and at last a run goes on
/// behind the message, from a label inside a label, and a label that makes its name too long ends behind the message.
const LENGTHS: [(&[u8], &[u8], Option<MessageFault>); 6] = [
    (
        &[63, 63, 63, 61],
        b"\0\0\x01\0\x01\xc0\x0c\0\x01\0\x01",
        None,
    ),
    (
        &[63, 63, 63, 62],
        b"\0\0\x01\0\x01\xc0\x0c\0\x01\0\x01",
        Some(MessageFault::LongName(12)),
    ),
    (
        &[63, 63, 63, 59],
        b"\0\0\x01\0\x01\x01b\xc0\x0c\0\x01\0\x01",
        None,
    ),
    (
        &[63, 63, 63, 60],
        b"\0\0\x01\0\x01\x01b\xc0\x0c\0\x01\0\x01",
        Some(MessageFault::LongName(270)),
    ),
    (
        &[],
        b"\x01\x20\0\0\x01\0\x01\xc0\x0d\0\x01\0\x01",
        Some(MessageFault::ShortPart(19)),
    ),
    (&[63, 63, 63], b"\x3faaa", Some(MessageFault::ShortPart(12))),
];

/// Whether such a question has this first fault, or none.
fn question_has(
    alloc: Global,
    lengths: &[u8],
    rest: &[u8],
    fault: Option<MessageFault>,
) -> Result<bool, Fail> {
    let bytes = long_question(alloc, lengths, rest)?;
    Ok(decode(alloc, bytes.as_slice()).err() == fault)
}

#[test]
fn longest_names_of_a_message(rt: HostRuntime) -> Result<(), Fail> {
    for (lengths, rest, fault) in LENGTHS.iter() {
        assert!(rt; question_has(rt.alloc(), *lengths, *rest, *fault)?);
    }
    Ok(())
}

/// A record's rdata has pointers at all even offsets that a pointer reaches, each to the one before it, and the next
/// record's owner is the last of them.
#[test]
fn longest_chain_of_pointers(rt: HostRuntime) -> Result<(), Fail> {
    let alloc = rt.alloc();
    let mut bytes = Vec::from_slice(alloc, b"\0\0\x80\0\0\0\0\x02\0\0\0\0")?;
    bytes.extend_from_slice(b"\0\0\x63\0\x01\0\0\0\0\x3f\xe9\x01a\0")?;
    let mut target = 23_u16;
    for i in 0..8_179_u16 {
        bytes.extend_from_slice(&(0xc000 | target).to_be_bytes())?;
        target = 26 + 2 * i;
    }
    bytes.extend_from_slice(b"\xff\xfe\0\x01\0\x01\0\0\0\0\0\x04abcd")?;
    let message = decode(alloc, bytes.as_slice())?;
    match message.answers.as_slice().last() {
        Some(found) => assert!(rt; found.name.to_text(alloc)?.as_slice() == b"a.".as_slice()),
        None => assert!(rt; false),
    }
    Ok(())
}

/// Bytes, where a name begins in them, and the offset behind it or its first fault.
const ENDS: [(&[u8], usize, Result<usize, MessageFault>); 6] = [
    (b"\0", 0, Ok(1)),
    (b"\x01a\0\x01b\xc0\0\x01c\0", 0, Ok(3)),
    (b"\x01a\0\x01b\xc0\0\x01c\0", 3, Ok(7)),
    (b"\x01a", 0, Err(MessageFault::ShortPart(0))),
    (b"\0\xc0\x01", 1, Err(MessageFault::BadPointer(1))),
    (b"\0\x40", 1, Err(MessageFault::BadLabel(1))),
];

#[test]
fn names_end_behind_their_first_pointer(rt: HostRuntime) -> Result<(), Fail> {
    for (bytes, start, end) in ENDS.iter() {
        assert!(rt; name_end(*bytes, *start) == *end);
    }
    Ok(())
}
