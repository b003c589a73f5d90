//! Runs over links.

use super::{ASK, End, OVER_TCP, PLAIN, Scene, ends_so, plays_so};
use scenario::Coming;
use std::test::Fail;

/// A truncated reply to the query with identifier 0x1234 for example.com: TC is set (RFC 1035, section 4.1.1).
const TRUNCATED: &[u8] = b"\x12\x34\x83\x80\0\x01\0\0\0\0\0\0\x07example\x03com\0\0\x01\0\x01";

/// The frame of the whole reply with the address 192.0.2.1, without its first byte.
const FRAME_REST: &[u8] =
    b"\x2d\x12\x34\x81\x80\0\x01\0\x01\0\0\0\0\x07example\x03com\0\0\x01\0\x01\xc0\x0c\0\x01\0\x01\0\0\0\x3c\0\x04\xc0\0\x02\x01";

/// A reply that is truncated, and the whole one over TCP: its frame (section 4.2.2) comes in two pieces, of which the
/// first has one byte.
pub const TRUNCATED_FIRST: [Coming<'static>; 3] = [
    Coming::Datagram {
        from: 1,
        server: 0,
        bytes: TRUNCATED,
    },
    Coming::Piece {
        from: 2,
        link: 1,
        bytes: b"\0",
    },
    Coming::Piece {
        from: 3,
        link: 1,
        bytes: FRAME_REST,
    },
];

/// A truncated reply is asked again over TCP. The link is closed in the turn in which its message answers.
#[test]
fn a_truncated_reply_is_asked_over_tcp(rt: HostRuntime) -> Result<(), Fail> {
    let scene = Scene {
        resolv: PLAIN,
        comings: &TRUNCATED_FIRST,
        fails: &[],
        turns: 4,
    };
    let end = End {
        status: 0,
        journal: "accept 1
start 1 on 0 over 0 at 0
arrive from 0 over 0
start 1 on 0 over 1 at 1
arrive from 0 over 1
take 1
",
        calls: "wait to 2000\nconnect 0 over 1\nwait to 2001\nwait to 2001\nclose 1\n",
    };
    assert!(rt; ends_so(rt.alloc(), &scene, &end)?);
    Ok(())
}

/// Two requests go over one link. Its peer ends it: both attempts fail by one fault, and both go over a new link.
#[test]
fn an_ended_link_fails_both_attempts(rt: HostRuntime) -> Result<(), Fail> {
    let items = [Coming::End { from: 1, link: 1 }];
    let scene = Scene {
        resolv: OVER_TCP,
        comings: &items,
        fails: &[],
        turns: 2,
    };
    let end = End {
        status: 100,
        journal: "accept 1
accept 2
start 1 on 0 over 1 at 0
start 2 on 0 over 1 at 0
fault of 0 over 1 at 1
start 1 on 0 over 2 at 1
start 2 on 0 over 2 at 1
",
        calls: "connect 0 over 1\nwait to 2000\nclose 1\nconnect 0 over 2\nwait to 4001\n",
    };
    assert!(rt; plays_so(rt.alloc(), &scene, &[ASK, ASK], &end)?);
    Ok(())
}
