//! Runs over datagrams.

use super::{End, ONE, REPLY, Scene, ends_so};
use scenario::Coming;
use std::test::Fail;

/// One server, which is asked three times (resolv.conf(5)).
const THRICE: &[u8] = b"nameserver 192.0.2.53\noptions timeout:2 attempts:3\n";

/// Two servers, of which each is asked twice.
const TWO: &[u8] = b"nameserver 192.0.2.53\nnameserver 192.0.2.54\noptions timeout:2 attempts:2\n";

/// The reply of a server that failed, and of one that can't read the query: response codes 2 and 1 (RFC 1035,
/// section 4.1.1).
const SERVFAIL: &[u8] = b"\x12\x34\x81\x82\0\x01\0\0\0\0\0\0\x07example\x03com\0\0\x01\0\x01";

const FORMERR: &[u8] = b"\x12\x34\x81\x81\0\x01\0\0\0\0\0\0\x07example\x03com\0\0\x01\0\x01";

/// Two servers are silent: each of four attempts waits for 2 seconds, and those of the second round for twice that.
#[test]
fn silence_goes_round_the_servers(rt: HostRuntime) -> Result<(), Fail> {
    let scene = Scene {
        resolv: TWO,
        comings: &[],
        fails: &[],
        turns: 6,
    };
    let end = End {
        status: 12,
        journal: "accept 1
start 1 on 0 over 0 at 0
expire 1 at 2000
start 1 on 1 over 0 at 2000
expire 1 at 4000
start 1 on 0 over 0 at 4000
expire 1 at 8000
start 1 on 1 over 0 at 8000
expire 1 at 12000
take 1
",
        calls: "wait to 2000\nwait to 4000\nwait to 8000\nwait to 12000\n",
    };
    assert!(rt; ends_so(rt.alloc(), &scene, &end)?);
    Ok(())
}

/// The reply can be received at the moment of the deadline: a turn receives before it lets expire.
#[test]
fn a_reply_at_the_deadline_counts(rt: HostRuntime) -> Result<(), Fail> {
    let items = [Coming::datagram(2000, 0, REPLY)];
    let scene = Scene {
        resolv: ONE,
        comings: &items,
        fails: &[],
        turns: 3,
    };
    let end = End {
        status: 0,
        journal: "accept 1\nstart 1 on 0 over 0 at 0\narrive from 0 over 0\ntake 1\n",
        calls: "wait to 2000\n",
    };
    assert!(rt; ends_so(rt.alloc(), &scene, &end)?);
    Ok(())
}

/// A right reply from the server that wasn't asked is a stray.
#[test]
fn another_server_answers_nothing(rt: HostRuntime) -> Result<(), Fail> {
    let items = [Coming::datagram(5, 1, REPLY)];
    let scene = Scene {
        resolv: TWO,
        comings: &items,
        fails: &[],
        turns: 3,
    };
    let end = End {
        status: 100,
        journal: "accept 1
start 1 on 0 over 0 at 0
arrive from 1 over 0
expire 1 at 2000
start 1 on 1 over 0 at 2000
",
        calls: "wait to 2000\nwait to 2000\nwait to 4000\n",
    };
    assert!(rt; ends_so(rt.alloc(), &scene, &end)?);
    Ok(())
}

/// A server that refuses the OPT record is asked again without one, and no attempt is spent.
#[test]
fn a_server_is_asked_again_without_opt(rt: HostRuntime) -> Result<(), Fail> {
    let items = [
        Coming::datagram(3, 0, FORMERR),
        Coming::datagram(4, 0, REPLY),
    ];
    let scene = Scene {
        resolv: ONE,
        comings: &items,
        fails: &[],
        turns: 4,
    };
    let end = End {
        status: 0,
        journal: "accept 1
start 1 on 0 over 0 at 0
arrive from 0 over 0
start 1 on 0 over 0 at 3
arrive from 0 over 0
take 1
",
        calls: "wait to 2000\nwait to 2003\n",
    };
    assert!(rt; ends_so(rt.alloc(), &scene, &end)?);
    Ok(())
}

/// A server that failed is left for the other one in the same turn.
#[test]
fn the_next_server_is_asked_at_once(rt: HostRuntime) -> Result<(), Fail> {
    let items = [
        Coming::datagram(1, 0, SERVFAIL),
        Coming::datagram(9, 1, REPLY),
    ];
    let scene = Scene {
        resolv: TWO,
        comings: &items,
        fails: &[],
        turns: 4,
    };
    let end = End {
        status: 0,
        journal: "accept 1
start 1 on 0 over 0 at 0
arrive from 0 over 0
start 1 on 1 over 0 at 1
arrive from 1 over 0
take 1
",
        calls: "wait to 2000\nwait to 2001\n",
    };
    assert!(rt; ends_so(rt.alloc(), &scene, &end)?);
    Ok(())
}

/// Each send to the only server fails: its three attempts are spent in one turn, without a wait. The calls of the
/// network are, by number: 0 tells the server, 1 reads the clock, 2 receives, and then a word is drawn before each
/// send.
#[test]
fn sends_fail_in_one_turn(rt: HostRuntime) -> Result<(), Fail> {
    let scene = Scene {
        resolv: THRICE,
        comings: &[],
        fails: &[4, 6, 8],
        turns: 1,
    };
    let end = End {
        status: 11,
        journal: "accept 1
start 1 on 0 over 0 at 0
fault of 0 over 0 at 0
start 1 on 0 over 0 at 0
fault of 0 over 0 at 0
start 1 on 0 over 0 at 0
fault of 0 over 0 at 0
take 1
",
        calls: "",
    };
    assert!(rt; ends_so(rt.alloc(), &scene, &end)?);
    Ok(())
}
