//! Messages: their first faults, a query, its reply, and the longest one.
use super::{answer_of, message_of};
use dns_message::{
    Bytes, EncodeFault, Message, MessageFault, Name, Question, QuestionList, Record, RecordList,
    decode, encode,
};
use std::alloc::Global;
use std::test::Fail;

/// How many questions the header counts, the bytes behind it, and the first fault.
const FAULTS: [(u8, &[u8], MessageFault); 9] = [
    (1, b"", MessageFault::ShortPart(12)),
    (1, b"\0\0\x01", MessageFault::ShortPart(13)),
    (1, b"\x01a\xc0", MessageFault::ShortPart(12)),
    (1, b"\x40\0\x01\0\x01", MessageFault::BadLabel(12)),
    (1, b"\xc0\x0c\0\x01\0\x01", MessageFault::BadPointer(12)),
    (1, b"\xc0\x20\0\x01\0\x01", MessageFault::BadPointer(12)),
    (
        1,
        b"\x01a\xc0\x0c\0\x01\0\x01",
        MessageFault::BadPointer(14),
    ),
    (1, b"\xc0\x02\0\x01\0\x01", MessageFault::BadLabel(2)),
    (0, b"\0", MessageFault::TrailingBytes(12)),
];

/// Whether so many questions and these bytes behind the header have this first fault.
fn has_fault(alloc: Global, questions: u8, rest: &[u8], fault: MessageFault) -> Result<bool, Fail> {
    let bytes = message_of(alloc, questions, rest)?;
    Ok(decode(alloc, bytes.as_slice()).err() == Some(fault))
}

#[test]
fn first_faults(rt: HostRuntime) -> Result<(), Fail> {
    for (questions, rest, fault) in FAULTS.iter() {
        assert!(rt; has_fault(rt.alloc(), *questions, *rest, *fault)?);
    }
    Ok(())
}

#[test]
fn shortest_message(rt: HostRuntime) -> Result<(), Fail> {
    let alloc = rt.alloc();
    assert!(rt; decode(alloc, &[0; 11]).err() == Some(MessageFault::ShortHeader));
    let message = decode(alloc, message_of(alloc, 0, b"")?.as_slice())?;
    assert!(rt; message.questions.is_empty() && message.answers.is_empty());
    Ok(())
}

/// The bytes of a query for the address of example.com, written by hand after RFC 1035, section 4.1.
const QUERY: &[u8; 29] = b"\x12\x34\x01\0\0\x01\0\0\0\0\0\0\x07example\x03com\0\0\x01\0\x01";

/// A reply to it, with one address whose owner is a pointer to the question.
const REPLY: &[u8; 45] =
    b"\x12\x34\x81\x80\0\x01\0\x01\0\0\0\0\x07example\x03com\0\0\x01\0\x01\xc0\x0c\0\x01\0\x01\0\0\x01\x2c\0\x04\xc0\0\x02\x01";

/// The query.
fn query(alloc: Global) -> Result<Message, Fail> {
    let mut questions = QuestionList::new(alloc);
    questions.push(Question {
        name: Name::from_text(alloc, b"example.com")?.name,
        kind: 1,
        class: 1,
    })?;
    Ok(Message {
        id: 0x1234,
        flags: 0x0100,
        questions,
        answers: RecordList::new(alloc),
        authorities: RecordList::new(alloc),
        additionals: RecordList::new(alloc),
    })
}

#[test]
fn a_query(rt: HostRuntime) -> Result<(), Fail> {
    let alloc = rt.alloc();
    let query = query(alloc)?;
    assert!(rt; query.valid());
    assert!(rt; encode(alloc, &query)?.as_slice() == QUERY.as_slice());
    Ok(())
}

/// Whether the record is the reply's address.
fn is_its_address(alloc: Global, found: &Record) -> Result<bool, Fail> {
    let has_owner = found.name.to_text(alloc)?.as_slice() == b"example.com.".as_slice();
    let is_address = found.kind == 1 && found.class == 1 && found.ttl == 300;
    Ok(has_owner && is_address && found.rdata.as_slice() == b"\xc0\0\x02\x01".as_slice())
}

#[test]
fn its_reply(rt: HostRuntime) -> Result<(), Fail> {
    let alloc = rt.alloc();
    let reply = decode(alloc, REPLY)?;
    assert!(rt; reply.id == 0x1234 && reply.flags == 0x8180 && reply.answers.len() == 1);
    for found in reply.answers.as_slice() {
        assert!(rt; is_its_address(alloc, found)?);
    }
    assert!(rt; encode(alloc, &reply)?.len() == 45 + 11);
    Ok(())
}

/// A message with a record in each section, and without pointers (RFC 1035, section 4.1): 192.0.2.1 is an address of the
/// root, its server is `a.`, and that has 192.0.2.2.
const SECTIONS: &[u8] =
    b"\0\x01\x84\0\0\x01\0\x01\0\x01\0\x01\0\0\x01\0\x01\0\0\x01\0\x01\0\0\0\x3c\0\x04\xc0\0\x02\x01\0\0\x02\0\x01\0\0\0\x3c\0\x03\x01a\0\x01a\0\0\x01\0\x01\0\0\0\x3c\0\x04\xc0\0\x02\x02";

#[test]
fn all_sections_are_written(rt: HostRuntime) -> Result<(), Fail> {
    let message = decode(rt.alloc(), SECTIONS)?;
    assert!(rt; encode(rt.alloc(), &message)?.as_slice() == SECTIONS);
    Ok(())
}

#[test]
fn its_reply_cut_short(rt: HostRuntime) {
    for len in 0..REPLY.len() {
        assert!(rt;
            matches!(
                decode(rt.alloc(), &REPLY[..len]).err(),
                Some(MessageFault::ShortHeader | MessageFault::ShortPart(_))
            )
        );
    }
}

/// A message with one record of the root, of a kind without a shape and with so many zero bytes of rdata.
fn long_message(alloc: Global, len: u32) -> Result<Message, Fail> {
    let mut rdata = Vec::new(alloc);
    for _ in 0..len {
        rdata.push(0)?;
    }
    answer_of(
        alloc,
        Record {
            name: Name::root(alloc),
            kind: 99,
            class: 1,
            ttl: 0,
            rdata: Bytes::from_vec(rdata),
        },
    )
}

#[test]
fn longest_message(rt: HostRuntime) -> Result<(), Fail> {
    let alloc = rt.alloc();
    assert!(rt; encode(alloc, &long_message(alloc, 65_512)?)?.len() == 65_535);
    let passes = long_message(alloc, 65_513)?;
    assert!(rt; encode(alloc, &passes).err() == Some(EncodeFault::TooLong));
    Ok(())
}

#[test]
fn longest_rdata(rt: HostRuntime) -> Result<(), Fail> {
    assert!(rt; long_message(rt.alloc(), 65_535)?.valid());
    assert!(rt; !long_message(rt.alloc(), 65_536)?.valid());
    Ok(())
}
