//! A reply cut at each byte, with each length of a name spoiled, and with counts and lengths that lie: each first fault
//! follows from where the reply's parts stand (RFC 1035, section 4.1).
use dns_message::{MessageFault, decode};
use std::alloc::Global;
use std::test::Fail;

/// A reply for www.example.com: an alias to web at 45, its address, the zone's server at 79, the server's address, and an
/// OPT record with the cookie of RFC 9018's appendix.
const REPLY: &[u8; 135] =
    b"\x12\x34\x81\x80\0\x01\0\x02\0\x01\0\x02\x03www\x07example\x03com\0\0\x01\0\x01\xc0\x0c\0\x05\0\x01\0\0\x01\x2c\0\x06\x03web\xc0\x10\xc0\x2d\0\x01\0\x01\0\0\0\x3c\0\x04\xc0\0\x02\x01\xc0\x10\0\x02\0\x01\0\0\x0e\x10\0\x05\x02ns\xc0\x10\xc0\x4f\0\x1c\0\x01\0\0\x0e\x10\0\x10\x20\x01\x0d\xb8\0\0\0\0\0\0\0\0\0\0\0\x01\0\0\x29\x04\xd0\0\0\0\0\0\x0c\0\x0a\0\x08\x24\x64\xc4\xab\xcf\x10\xc9\x57";

/// Where its parts begin: the question's name and what is behind it, then of each record the name, the ten bytes behind it
/// and the rdata.
const PARTS: [usize; 17] = [
    12, 29, 33, 35, 45, 51, 53, 63, 67, 69, 79, 84, 86, 96, 112, 113, 123,
];

/// The fault of its first bytes, if they are so many: they end in the last part that begins among them or behind them.
fn cut_fault(len: usize) -> MessageFault {
    let mut fault = MessageFault::ShortHeader;
    for begin in PARTS.iter() {
        if *begin <= len {
            fault = MessageFault::ShortPart(*begin as u64);
        }
    }
    fault
}

#[test]
fn cut_replies_have_their_part(rt: HostRuntime) {
    for len in 0..REPLY.len() {
        assert!(rt; decode(rt.alloc(), &REPLY[..len]).err() == Some(cut_fault(len)));
    }
    assert!(rt; decode(rt.alloc(), REPLY).is_ok());
}

/// Puts a byte at an offset.
fn put(bytes: &mut Vec<u8>, at: usize, byte: u8) {
    if let Some(found) = bytes.as_mut_slice().get_mut(at) {
        *found = byte;
    }
}

/// Whether the reply with these two bytes at an offset has this first fault.
fn is_spoiled(alloc: Global, at: usize, two: [u8; 2], fault: MessageFault) -> Result<bool, Fail> {
    let mut bytes = Vec::from_slice(alloc, REPLY)?;
    let [first, second] = two;
    put(&mut bytes, at, first);
    put(&mut bytes, at.saturating_add(1), second);
    Ok(decode(alloc, bytes.as_slice()).err() == Some(fault))
}

/// The offset of a count or of an rdata's length, what stands there instead, and the first fault. Without questions the
/// question's name is the first answer's, whose rdata has a byte at 39; with two the second ends at 39, and behind it
/// stands the root, whose rdata would have 25,280 bytes from 50 on.
const COUNTS: [(usize, [u8; 2], MessageFault); 15] = [
    (4, [0, 0], MessageFault::BadRdata(39)),
    (4, [0, 2], MessageFault::ShortPart(50)),
    (6, [0, 3], MessageFault::ShortPart(135)),
    (6, [0, 1], MessageFault::TrailingBytes(112)),
    (10, [0, 3], MessageFault::ShortPart(135)),
    (10, [255, 255], MessageFault::ShortPart(135)),
    (43, [0, 5], MessageFault::BadRdata(45)),
    (43, [0, 7], MessageFault::BadRdata(45)),
    (43, [255, 255], MessageFault::ShortPart(45)),
    (61, [0, 3], MessageFault::BadRdata(63)),
    (61, [0, 5], MessageFault::BadRdata(63)),
    (77, [0, 0], MessageFault::BadRdata(79)),
    (94, [0, 17], MessageFault::BadRdata(96)),
    (121, [0, 11], MessageFault::TrailingBytes(134)),
    (121, [0, 13], MessageFault::ShortPart(123)),
];

#[test]
fn counts_that_lie(rt: HostRuntime) -> Result<(), Fail> {
    for (at, two, fault) in COUNTS.iter() {
        assert!(rt; is_spoiled(rt.alloc(), *at, *two, *fault)?);
    }
    Ok(())
}

/// The offset of a label's length or of a pointer, and the first fault where its top bits are 01 or 10: in rdata it is
/// that of the rdata.
const LENGTHS: [(usize, MessageFault); 13] = [
    (12, MessageFault::BadLabel(12)),
    (16, MessageFault::BadLabel(16)),
    (24, MessageFault::BadLabel(24)),
    (28, MessageFault::BadLabel(28)),
    (33, MessageFault::BadLabel(33)),
    (45, MessageFault::BadRdata(45)),
    (49, MessageFault::BadRdata(45)),
    (51, MessageFault::BadLabel(51)),
    (67, MessageFault::BadLabel(67)),
    (79, MessageFault::BadRdata(79)),
    (82, MessageFault::BadRdata(79)),
    (84, MessageFault::BadLabel(84)),
    (112, MessageFault::BadLabel(112)),
];

/// Whether the reply with this byte at an offset has this first fault.
fn is_refused(alloc: Global, at: usize, byte: u8, fault: MessageFault) -> Result<bool, Fail> {
    let mut bytes = Vec::from_slice(alloc, REPLY)?;
    put(&mut bytes, at, byte);
    Ok(decode(alloc, bytes.as_slice()).err() == Some(fault))
}

#[test]
fn lengths_that_are_none(rt: HostRuntime) -> Result<(), Fail> {
    for (at, fault) in LENGTHS.iter() {
        assert!(rt; is_refused(rt.alloc(), *at, 0x40, *fault)?);
        assert!(rt; is_refused(rt.alloc(), *at, 0x80, *fault)?);
        assert!(rt; is_refused(rt.alloc(), *at, 0xbf, *fault)?);
    }
    Ok(())
}
