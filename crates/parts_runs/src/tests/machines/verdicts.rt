//! What a reply means, as a table.

use super::{address_of_example, judged_twice, plain_terms};
use chan_types::Status;
use query_machine::{Judged, Terms};
use resolv_options::Flags;
use std::alloc::Global;
use std::test::Fail;

/// A reply to the question for the addresses of example.com with these flags, with an answer of this kind and class if it
/// has one, whose rdata is an address and a name alike, and with the extended byte of an OPT record if it has one:
/// RFC 1035, section 4.1, and RFC 6891, section 6.1.3.
fn reply_of(
    alloc: Global,
    flags: u16,
    extended: Option<u8>,
    answer: Option<(u8, u8)>,
) -> Result<Vec<u8>, Fail> {
    let [high, low] = flags.to_be_bytes();
    let answers = if answer.is_some() { 1 } else { 0 };
    let additionals = if extended.is_some() { 1 } else { 0 };
    let mut bytes = Vec::from_slice(
        alloc,
        &[
            0x12,
            0x34,
            high,
            low,
            0,
            1,
            0,
            answers,
            0,
            0,
            0,
            additionals,
        ],
    )?;
    bytes.extend_from_slice(b"\x07example\x03com\0\0\x01\0\x01")?;
    if let Some((kind, class)) = answer {
        bytes.extend_from_slice(&[
            0xc0, 12, 0, kind, 0, class, 0, 0, 0, 60, 0, 4, 2, b'a', b'b', 0,
        ])?;
    }
    if let Some(extended) = extended {
        bytes.extend_from_slice(&[0, 0, 41, 4, 208, extended, 0, 0, 0, 0, 0])?;
    }
    Ok(bytes)
}

/// What comes over UDP for a query with an OPT record, where no flag says otherwise: flags, extended byte, and what it means.
/// Bits and response codes are those of RFC 1035, section 4.1.1 (QR 0x8000, TC 0x0200); the order of the rules is the profile's.
const OVER_UDP: [(u16, Option<u8>, Judged); 15] = [
    (0x8200, None, Judged::NextTcp),
    (0x8201, None, Judged::NextTcp),
    (0x8202, Some(0), Judged::NextTcp),
    (0x8001, None, Judged::NextPlain),
    (0x8001, Some(0), Judged::Final(Status::FormErr)),
    (0x8002, None, Judged::Failed(Status::ServFail)),
    (0x8004, None, Judged::Failed(Status::NotImp)),
    (0x8005, Some(0), Judged::Failed(Status::Refused)),
    (0x8003, None, Judged::Final(Status::NotFound)),
    (0x8006, None, Judged::Final(Status::BadResp)),
    (0x8000, None, Judged::Final(Status::NoData)),
    (0x8000, Some(1), Judged::Final(Status::BadResp)),
    (0x8001, Some(1), Judged::Final(Status::BadResp)),
    (0x8002, Some(1), Judged::Final(Status::BadResp)),
    (0x8005, Some(1), Judged::Final(Status::BadResp)),
];

#[test]
fn rules_are_tried_in_order(rt: HostRuntime) -> Result<(), Fail> {
    let alloc = rt.alloc();
    let asked = address_of_example(alloc)?;
    let terms = plain_terms(alloc)?;
    for (bits, extended, judged) in OVER_UDP.iter() {
        let reply = reply_of(alloc, *bits, *extended, None)?;
        let found = judged_twice(alloc, reply.as_slice(), &asked, false, terms)?;
        assert!(rt; found == [Some(*judged); 2]);
    }
    Ok(())
}

/// Flags of a reply without an OPT record, whether the query went over TCP and had an OPT record, whether truncation and bad
/// response codes count for nothing (IGNTC and NOCHECKRESP of c-ares), and what the reply means.
const OTHERWISE: [(u16, bool, bool, bool, bool, Judged); 10] = [
    (
        0x8200,
        true,
        true,
        false,
        false,
        Judged::Final(Status::NoData),
    ),
    (
        0x8200,
        false,
        true,
        true,
        false,
        Judged::Final(Status::NoData),
    ),
    (0x8201, true, true, false, false, Judged::NextPlain),
    (
        0x8202,
        true,
        true,
        false,
        false,
        Judged::Failed(Status::ServFail),
    ),
    (
        0x8001,
        false,
        false,
        false,
        false,
        Judged::Final(Status::FormErr),
    ),
    (
        0x8002,
        false,
        true,
        false,
        true,
        Judged::Final(Status::ServFail),
    ),
    (
        0x8004,
        false,
        true,
        false,
        true,
        Judged::Final(Status::NotImp),
    ),
    (
        0x8005,
        false,
        true,
        false,
        true,
        Judged::Final(Status::Refused),
    ),
    (0x8001, false, true, true, true, Judged::NextPlain),
    (0x8200, false, true, false, true, Judged::NextTcp),
];

#[test]
fn flags_and_transport_change_a_verdict(rt: HostRuntime) -> Result<(), Fail> {
    let alloc = rt.alloc();
    let asked = address_of_example(alloc)?;
    let plain = plain_terms(alloc)?;
    for row in OTHERWISE.iter() {
        let (bits, tcp, edns, igntc, nocheckresp, judged) = *row;
        let reply = reply_of(alloc, bits, None, None)?;
        let flags = Flags {
            igntc,
            nocheckresp,
            ..plain.flags
        };
        let terms = Terms {
            flags,
            tcp,
            edns,
            wanted: None,
        };
        let found = judged_twice(alloc, reply.as_slice(), &asked, false, terms)?;
        assert!(rt; found == [Some(judged); 2]);
    }
    Ok(())
}

/// A record's kind and class, which kind is wanted if one is, and the status: a CNAME (kind 5), an IPv4 address (1) and one of
/// another class (3, CHAOS), where IPv4 addresses are wanted or any answer will do (RFC 1035, sections 3.2.2 and 3.2.4).
const WANTED: [((u8, u8), Option<u16>, Status); 5] = [
    ((5, 1), None, Status::Success),
    ((5, 1), Some(1), Status::NoData),
    ((1, 1), Some(1), Status::Success),
    ((1, 3), Some(1), Status::NoData),
    ((1, 3), None, Status::Success),
];

#[test]
fn an_address_leg_wants_its_kind(rt: HostRuntime) -> Result<(), Fail> {
    let alloc = rt.alloc();
    let asked = address_of_example(alloc)?;
    let plain = plain_terms(alloc)?;
    for (answer, wanted, status) in WANTED.iter() {
        let reply = reply_of(alloc, 0x8180, None, Some(*answer))?;
        let terms = Terms {
            wanted: *wanted,
            ..plain
        };
        let found = judged_twice(alloc, reply.as_slice(), &asked, false, terms)?;
        assert!(rt; found == [Some(Judged::Final(*status)); 2]);
    }
    Ok(())
}
