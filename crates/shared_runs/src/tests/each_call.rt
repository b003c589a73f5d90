//! What each call of a place answers, with ample memory.

use super::calls::query;
use super::moves::Move;
use super::row::{Row, played_alone};
use super::telling::{End, Played, ended_so};
use chan_types::{NoMemory, Script};
use std::alloc::Global;
use std::sync::Wait;
use std::test::*;

/// Makes these moves behind one query. Tells what each answered, and what is left of the channel.
fn played_behind_a_query<R: Wait>(
    rt: &R,
    alloc: Global,
    moves: &[Move],
) -> Result<Played, NoMemory> {
    let row = Row {
        spec: query(alloc)?,
        script: Script::blank(alloc, 1),
        moves,
    };
    played_alone(rt, alloc, row)
}

// The one server is given three attempts. The first waits 2,000 ms, and each wait is twice the one before. Two expire and
// one fails, and then the request has timed out.
#[test]
fn attempts_expire_and_fail(rt: HostRuntime) -> Result<(), Fail> {
    let alloc = rt.alloc();
    let moves = [
        Move::Counts,
        Move::Due,
        Move::Busy(0),
        Move::Begin(100),
        Move::Counts,
        Move::Due,
        Move::Busy(0),
        Move::Busy(1),
        Move::Expire(2099),
        Move::Expire(2100),
        Move::Counts,
        Move::Begin(3000),
        Move::Due,
        Move::Fault(1),
        Move::Fault(0),
        Move::Fault(0),
        Move::Begin(4000),
        Move::Due,
        Move::Expire(12000),
        Move::Counts,
        Move::Due,
        Move::Begin(13000),
        Move::Deliver,
        Move::Counts,
    ];
    let played = played_behind_a_query(&rt, alloc, &moves)?;
    let end = End {
        told: &[
            1010, 0, 0, 1, 1001, 2100, 1, 0, 0, 1, 1010, 1, 7000, 0, 1, 0, 1, 12000, 1, 100, 0, 0,
            1, 0,
        ],
        journal: "accept 1\nstart 1\nexpire 1\nstart 1\nfault\nfault\nfault\n\
        start 1\nexpire 1\ntake 1\ndestroy\n",
        calls: &[(1, 12)],
    };
    assert!(rt; ended_so(alloc, &played, &end)?);
    Ok(())
}

// The channel's server 0 leaves the list, which closes the attempt on it without spending it; the new server gets the
// next key. The same list again closes nothing. A destroyed channel takes no servers.
#[test]
fn servers_are_set(rt: HostRuntime) -> Result<(), Fail> {
    let alloc = rt.alloc();
    let moves = [
        Move::Begin(0),
        Move::Servers,
        Move::Counts,
        Move::Begin(1000),
        Move::Due,
        Move::Busy(0),
        Move::Busy(1),
        Move::Servers,
        Move::Busy(1),
        Move::Fault(1),
        Move::ReplyAddress,
        Move::Counts,
        Move::Deliver,
        Move::Destroy,
        Move::Servers,
    ];
    let played = played_behind_a_query(&rt, alloc, &moves)?;
    let end = End {
        told: &[1, 1, 1010, 1, 3000, 0, 1, 0, 1, 1, 1, 100, 1, 1, 21],
        journal: "accept 1\nstart 1\nservers\nstart 1\nservers\nfault\n\
        start 1\narrive\ntake 1\ndestroy\n",
        calls: &[(1, 0)],
    };
    assert!(rt; ended_so(alloc, &played, &end)?);
    Ok(())
}

// Each call that may refuse does its work: a request is accepted, an attempt begins, nothing is due, a list of servers
// closes the attempt, another begins on the new server and fails, and the reply to a third is taken in.
#[test]
fn no_call_is_refused(rt: HostRuntime) -> Result<(), Fail> {
    let alloc = rt.alloc();
    let moves = [
        Move::Ask,
        Move::Begin(0),
        Move::Expire(0),
        Move::Servers,
        Move::Begin(0),
        Move::Fault(1),
        Move::ReplyAddress,
    ];
    let played = played_behind_a_query(&rt, alloc, &moves)?;
    let end = End {
        told: &[2, 1, 0, 1, 1, 1, 1],
        journal: "accept 1\naccept 2\nstart 1\nservers\nstart 1\nfault\nstart 1\narrive\ndestroy\ntake 1\ntake 2\n",
        calls: &[(1, 0), (2, 16)],
    };
    assert!(rt; ended_so(alloc, &played, &end)?);
    Ok(())
}
