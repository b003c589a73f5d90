//! What answers no attempt, and how much of it a turn receives.

use super::{ASK, End, ONE, OVER_TCP, REPLY, Run, Scene, begun, ends_so, play, status_of};
use scenario::Coming;
use std::alloc::Global;
use std::test::Fail;

/// So many strays, and behind them the right reply, all from the moment of the deadline on.
fn strays_first(alloc: Global, strays: u64) -> Result<Vec<Coming<'static>>, Fail> {
    let mut items = Vec::new(alloc);
    for _ in 0..strays {
        items.push(Coming::datagram(2000, 0, b"stray"))?;
    }
    items.push(Coming::datagram(2000, 0, REPLY))?;
    Ok(items)
}

/// The status of the one request of a run of two turns.
fn status_in(alloc: Global, run: &mut Run) -> Result<u8, Fail> {
    play(alloc, run, &[ASK], 2)?;
    Ok(status_of(run))
}

/// The status of a request on whose network this comes.
fn status_with(alloc: Global, comings: &[Coming<'_>]) -> Result<u8, Fail> {
    let scene = Scene {
        resolv: ONE,
        comings,
        fails: &[],
        turns: 2,
    };
    status_in(alloc, &mut begun(alloc, &scene)?)
}

/// The status of a request whose reply comes behind so many strays.
fn status_behind(alloc: Global, strays: u64) -> Result<u8, Fail> {
    let items = strays_first(alloc, strays)?;
    status_with(alloc, items.as_slice())
}

/// A turn receives 64 items before it lets expire: behind 63 strays the reply still counts, and behind 64 it doesn't.
#[test]
fn a_turn_receives_64_items(rt: HostRuntime) -> Result<(), Fail> {
    assert!(rt; status_behind(rt.alloc(), 63)? == 0);
    assert!(rt; status_behind(rt.alloc(), 64)? == 12);
    Ok(())
}

/// These bytes of link 1, one in each piece.
fn one_by_one(alloc: Global, bytes: &[u8]) -> Result<Vec<Coming<'_>>, Fail> {
    let mut items = Vec::new(alloc);
    for byte in bytes.chunks(1) {
        items.push(Coming::piece(1, 1, byte))?;
    }
    Ok(items)
}

/// A frame without a byte, and then that of the reply (RFC 1035, section 4.2.2).
const EMPTY_FIRST: &[u8] =
    b"\0\0\0\x2d\x12\x34\x81\x80\0\x01\0\x01\0\0\0\0\x07example\x03com\0\0\x01\0\x01\xc0\x0c\0\x01\0\x01\0\0\0\x3c\0\x04\xc0\0\x02\x01";

/// Both come one byte in each piece.
#[test]
fn an_empty_message_is_a_stray(rt: HostRuntime) -> Result<(), Fail> {
    let items = one_by_one(rt.alloc(), EMPTY_FIRST)?;
    let scene = Scene {
        resolv: OVER_TCP,
        comings: items.as_slice(),
        fails: &[],
        turns: 2,
    };
    let end = End {
        status: 0,
        journal: "accept 1
start 1 on 0 over 1 at 0
arrive from 0 over 1
arrive from 0 over 1
take 1
",
        calls: "connect 0 over 1\nwait to 2000\nclose 1\n",
    };
    assert!(rt; ends_so(rt.alloc(), &scene, &end)?);
    Ok(())
}

/// The longest frame, of zero bytes.
fn longest(alloc: Global) -> Result<Vec<u8>, Fail> {
    let mut bytes = Vec::from_elem(alloc, 0u8, 65_537)?;
    bytes[0] = 0xff;
    bytes[1] = 0xff;
    Ok(bytes)
}

/// It is a stray, and its link stays.
#[test]
fn the_longest_message_is_a_stray(rt: HostRuntime) -> Result<(), Fail> {
    let bytes = longest(rt.alloc())?;
    let items = [Coming::piece(1, 1, bytes.as_slice())];
    let scene = Scene {
        resolv: OVER_TCP,
        comings: &items,
        fails: &[],
        turns: 2,
    };
    let end = End {
        status: 100,
        journal: "accept 1\nstart 1 on 0 over 1 at 0\narrive from 0 over 1\n",
        calls: "connect 0 over 1\nwait to 2000\nwait to 2000\n",
    };
    assert!(rt; ends_so(rt.alloc(), &scene, &end)?);
    Ok(())
}

/// A piece of a link that isn't held leaves no entry.
#[test]
fn a_piece_of_another_link_is_passed_over(rt: HostRuntime) -> Result<(), Fail> {
    let items = [Coming::piece(1, 7, REPLY)];
    let scene = Scene {
        resolv: OVER_TCP,
        comings: &items,
        fails: &[],
        turns: 2,
    };
    let end = End {
        status: 100,
        journal: "accept 1\nstart 1 on 0 over 1 at 0\n",
        calls: "connect 0 over 1\nwait to 2000\nwait to 2000\n",
    };
    assert!(rt; ends_so(rt.alloc(), &scene, &end)?);
    Ok(())
}
