//! Hostile messages: labels that aren't whole, pointers that lead astray, rdata that stops inside a name, and OPT records
//! that don't fit. Each fault is by hand from the grammar (RFC 1035, section 4.1; RFC 6891, section 6.1).
use dns_message::{MessageFault, decode};
use edns_opt::{EdnsFault, find};
use std::alloc::Global;
use std::test::Fail;

/// A message, and its first fault if it has one.
type Row = (&'static [u8], Option<MessageFault>);

/// Counts without items, and labels.
const LABELS: [Row; 8] = [
    // 65,535 items of each section, and nothing behind
    (
        b"\x12\x34\x81\x80\xff\xff\xff\xff\xff\xff\xff\xff",
        Some(MessageFault::ShortPart(12)),
    ),
    // an answer, and nothing behind
    (
        b"\x12\x34\x81\x80\0\0\0\x01\0\0\0\0",
        Some(MessageFault::ShortPart(12)),
    ),
    // a label of 63 bytes that isn't whole
    (
        b"\x12\x34\x81\x80\0\x01\0\0\0\0\0\0\x3faaaaaaaaaaaaaaaaaaaaaaaaaaaaaaaaaaaaaaaaaaaaaaaaaaaaaaaaaaaaaa",
        Some(MessageFault::ShortPart(12)),
    ),
    // a label of 63 bytes
    (
        b"\x12\x34\x81\x80\0\x01\0\0\0\0\0\0\x3faaaaaaaaaaaaaaaaaaaaaaaaaaaaaaaaaaaaaaaaaaaaaaaaaaaaaaaaaaaaaaa\0\0\x01\0\x01",
        None,
    ),
    // a label of 64 bytes
    (
        b"\x12\x34\x81\x80\0\x01\0\0\0\0\0\0\x40aaaaaaaaaaaaaaaaaaaaaaaaaaaaaaaaaaaaaaaaaaaaaaaaaaaaaaaaaaaaaaaa\0\0\x01\0\x01",
        Some(MessageFault::BadLabel(12)),
    ),
    // the length 128
    (
        b"\x12\x34\x81\x80\0\x01\0\0\0\0\0\0\x80a\0\0\x01\0\x01",
        Some(MessageFault::BadLabel(12)),
    ),
    // the length 191, behind a label
    (
        b"\x12\x34\x81\x80\0\x01\0\0\0\0\0\0\x01a\xbf\0\0\x01\0\x01",
        Some(MessageFault::BadLabel(14)),
    ),
    // a label that takes the root's byte
    (
        b"\x12\x34\x81\x80\0\x01\0\0\0\0\0\0\x01\0",
        Some(MessageFault::ShortPart(12)),
    ),
];

#[test]
fn labels_that_are_not_whole(rt: HostRuntime) {
    for (bytes, fault) in LABELS.iter() {
        assert!(rt; decode(rt.alloc(), *bytes).err() == *fault);
    }
}

/// Pointers: a question's name stands at 12, and in some of the messages a second one's.
const POINTERS: [Row; 14] = [
    // forwards, to a zero byte
    (
        b"\x12\x34\x81\x80\0\x01\0\0\0\0\0\0\xc0\x0e\0\0\x01\0\x01",
        Some(MessageFault::BadPointer(12)),
    ),
    // behind the message
    (
        b"\x12\x34\x81\x80\0\x01\0\0\0\0\0\0\xff\xff\0\x01\0\x01",
        Some(MessageFault::BadPointer(12)),
    ),
    // to itself
    (
        b"\x12\x34\x81\x80\0\x01\0\0\0\0\0\0\xc0\x0c\0\x01\0\x01",
        Some(MessageFault::BadPointer(12)),
    ),
    // to the label before it
    (
        b"\x12\x34\x81\x80\0\x01\0\0\0\0\0\0\x01a\xc0\x0c\0\x01\0\x01",
        Some(MessageFault::BadPointer(14)),
    ),
    // into the label before it
    (
        b"\x12\x34\x81\x80\0\x01\0\0\0\0\0\0\x01a\xc0\x0d\0\x01\0\x01",
        Some(MessageFault::BadPointer(14)),
    ),
    // half of one
    (
        b"\x12\x34\x81\x80\0\x01\0\0\0\0\0\0\xc0",
        Some(MessageFault::ShortPart(12)),
    ),
    // to a pointer inside a label, which points to itself
    (
        b"\x12\x34\x81\x80\0\x02\0\0\0\0\0\0\x02\xc0\x0d\0\0\x01\0\x01\xc0\x0d\0\x01\0\x01",
        Some(MessageFault::BadPointer(13)),
    ),
    // to the second of two pointers inside a label, which point to one another
    (
        b"\x12\x34\x81\x80\0\x02\0\0\0\0\0\0\x04\xc0\x0f\xc0\x0d\0\0\x01\0\x01\xc0\x0f\0\x01\0\x01",
        Some(MessageFault::BadPointer(13)),
    ),
    // to a pointer to a name
    (
        b"\x12\x34\x81\x80\0\x03\0\0\0\0\0\0\x01a\0\0\x01\0\x01\xc0\x0c\0\x01\0\x01\xc0\x13\0\x01\0\x01",
        None,
    ),
    // to the identifier, whose first byte begins a label of 18 bytes; behind it stands the pointer
    (
        b"\x12\x34\x81\x80\0\x02\0\0\0\0\0\0\x01a\0\0\x01\0\x01\xc0\0\0\x01\0\x01",
        Some(MessageFault::BadPointer(19)),
    ),
    // to the flags
    (
        b"\x12\x34\x81\x80\0\x01\0\0\0\0\0\0\xc0\x02\0\x01\0\x01",
        Some(MessageFault::BadLabel(2)),
    ),
    // to the count of questions, whose first byte is the root's
    (
        b"\x12\x34\x81\x80\0\x01\0\0\0\0\0\0\xc0\x04\0\x01\0\x01",
        None,
    ),
    // to the count's second byte: a label of a zero byte, and the root's
    (
        b"\x12\x34\x81\x80\0\x01\0\0\0\0\0\0\xc0\x05\0\x01\0\x01",
        None,
    ),
    // to the count of additionals, whose second byte is the length of a label, which is the pointer's first byte; its
    // second byte is the length of the next label
    (
        b"\x12\x34\x81\x80\0\x01\0\0\0\0\0\x01\xc0\x0b\0\x01\0\x01\0\0\x10\0\x01\0\0\0\0\0\0",
        None,
    ),
];

#[test]
fn pointers_that_lead_astray(rt: HostRuntime) {
    for (bytes, fault) in POINTERS.iter() {
        assert!(rt; decode(rt.alloc(), *bytes).err() == *fault);
    }
}

/// Records behind the header, of which the first has the root as its name: rdata from 23 on.
const RDATA: [Row; 5] = [
    // a server's rdata ends inside the name, and a whole record goes on there
    (
        b"\x12\x34\x81\x80\0\0\0\x02\0\0\0\0\0\0\x02\0\x01\0\0\0\0\0\x03\x03we\0\0\x01\0\x01\0\0\0\0\0\x04\x01\x02\x03\x04",
        Some(MessageFault::BadRdata(23)),
    ),
    // a server's rdata ends inside the name, and with it the message
    (
        b"\x12\x34\x81\x80\0\0\0\x01\0\0\0\0\0\0\x02\0\x01\0\0\0\0\0\x03\x03we",
        Some(MessageFault::BadRdata(23)),
    ),
    // the same where the rdata isn't whole
    (
        b"\x12\x34\x81\x80\0\0\0\x01\0\0\0\0\0\0\x02\0\x01\0\0\0\0\0\x04\x03we",
        Some(MessageFault::ShortPart(23)),
    ),
    // a name, and in its run a pointer to it
    (
        b"\x12\x34\x81\x80\0\0\0\x01\0\0\0\0\0\0\x05\0\x01\0\0\0\0\0\x06\x03web\xc0\x17",
        Some(MessageFault::BadRdata(23)),
    ),
    // a pointer to the first byte of the record's type, which is zero
    (
        b"\x12\x34\x81\x80\0\0\0\x01\0\0\0\0\0\0\x05\0\x01\0\0\0\0\0\x02\xc0\x0d",
        None,
    ),
];

#[test]
fn rdata_that_stops_inside_a_name(rt: HostRuntime) {
    for (bytes, fault) in RDATA.iter() {
        assert!(rt; decode(rt.alloc(), *bytes).err() == *fault);
    }
}

/// A message with OPT records, and what is wrong with them, by the offset of an option in the rdata.
const OPTS: [(&[u8], Option<EdnsFault>); 11] = [
    // one
    (
        b"\x12\x34\x81\x80\0\0\0\0\0\0\0\x01\0\0\x29\x04\xd0\0\0\0\0\0\0",
        None,
    ),
    // two
    (
        b"\x12\x34\x81\x80\0\0\0\0\0\0\0\x02\0\0\x29\x04\xd0\0\0\0\0\0\0\0\0\x29\x04\xd0\0\0\0\0\0\0",
        Some(EdnsFault::DoubleOpt),
    ),
    // one among the answers, whose rdata is no options, and one among the additionals
    (
        b"\x12\x34\x81\x80\0\0\0\x01\0\0\0\x01\0\0\x29\x04\xd0\0\0\0\0\0\x01\0\0\0\x29\x04\xd0\0\0\0\0\0\0",
        None,
    ),
    // an option of eight bytes, of which seven are there
    (
        b"\x12\x34\x81\x80\0\0\0\0\0\0\0\x01\0\0\x29\x04\xd0\0\0\0\0\0\x0b\0\x0a\0\x08\x01\x02\x03\x04\x05\x06\x07",
        Some(EdnsFault::BadOptions(0)),
    ),
    // a whole option, and one of two bytes, of which one is there
    (
        b"\x12\x34\x81\x80\0\0\0\0\0\0\0\x01\0\0\x29\x04\xd0\0\0\0\0\0\x0a\0\x0a\0\x01\xff\0\x0b\0\x02a",
        Some(EdnsFault::BadOptions(5)),
    ),
    // a whole option, and a code without a length
    (
        b"\x12\x34\x81\x80\0\0\0\0\0\0\0\x01\0\0\x29\x04\xd0\0\0\0\0\0\x07\0\x0a\0\x01\xff\0\x0b",
        Some(EdnsFault::BadOptions(5)),
    ),
    // three bytes of an option's front
    (
        b"\x12\x34\x81\x80\0\0\0\0\0\0\0\x01\0\0\x29\x04\xd0\0\0\0\0\0\x03\0\x0a\0",
        Some(EdnsFault::BadOptions(0)),
    ),
    // an option of 65,535 bytes, of which none is there
    (
        b"\x12\x34\x81\x80\0\0\0\0\0\0\0\x01\0\0\x29\x04\xd0\0\0\0\0\0\x04\0\x0a\xff\xff",
        Some(EdnsFault::BadOptions(0)),
    ),
    // an option without bytes
    (
        b"\x12\x34\x81\x80\0\0\0\0\0\0\0\x01\0\0\x29\x04\xd0\0\0\0\0\0\x04\0\x0a\0\0",
        None,
    ),
    // two, of which the first has a cut option
    (
        b"\x12\x34\x81\x80\0\0\0\0\0\0\0\x02\0\0\x29\x04\xd0\0\0\0\0\0\x01\0\0\0\x29\x04\xd0\0\0\0\0\0\0",
        Some(EdnsFault::DoubleOpt),
    ),
    // one with a name, version 1 and all flags
    (
        b"\x12\x34\x81\x80\0\0\0\0\0\0\0\x01\x01a\0\0\x29\x04\xd0\x01\x01\xff\xff\0\0",
        None,
    ),
];

/// What is wrong with the OPT records of a message.
fn opt_fault(alloc: Global, bytes: &[u8]) -> Result<Option<EdnsFault>, Fail> {
    let message = decode(alloc, bytes)?;
    Ok(find(alloc, &message).err())
}

#[test]
fn opt_records_that_do_not_fit(rt: HostRuntime) -> Result<(), Fail> {
    for (bytes, fault) in OPTS.iter() {
        assert!(rt; opt_fault(rt.alloc(), *bytes)? == *fault);
    }
    Ok(())
}
