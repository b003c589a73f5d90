//! Sessions over a network in memory that loses: how they end, and which answers were told.

ghost use Rattle.std.specs.Prelude.{◌<◌, ◌≤◌};

use chan_types::{
    Act, Addr, Answer, Bytes, Family, Need, NoMemory, Orders, Script, Spec, Step, Steps, When,
};
use completion_ticket::{Callback, Scripted};
use hosts_file::Hosts;
use resolv_options::Options;
use shared_session::{Ran, Session, SessionEnd, Task, run_shared};
use std::alloc::Global;
use std::sync::Wait;
use std::test::*;
use std::thread::Threads;
use test_nameserver::{PeerWorld, Zone};

/// Three hosts, each with its address.
const ZONE: &[u8] = b"a.test. 60 A 192.0.2.1\nb.test. 60 A 192.0.2.2\nc.test. 60 A 192.0.2.3\n";

/// The names of these hosts, in order.
const HOSTS: [&[u8]; 3] = [b"a.test.", b"b.test.", b"c.test."];

/// A case: how many names are asked, whether the callback of each asks for the first host once more, how many workers there are,
/// and how many turns may be made; and how it ends, how many requests are accepted, and how many of the answers are addresses.
struct Case {
    names: u64,
    follow: bool,
    workers: u64,
    turns: u64,
    end: SessionEnd,
    accepted: u64,
    found: u64,
}

/// The network loses the first query for one of the hosts, which is asked again; one turn is too few for any reply.
const CASES: [Case; 6] = [
    Case {
        names: 0,
        follow: false,
        workers: 1,
        turns: 9,
        end: SessionEnd::Completed,
        accepted: 0,
        found: 0,
    },
    Case {
        names: 300,
        follow: false,
        workers: 1,
        turns: 100_000,
        end: SessionEnd::Completed,
        accepted: 300,
        found: 300,
    },
    Case {
        names: 300,
        follow: false,
        workers: 2,
        turns: 100_000,
        end: SessionEnd::Completed,
        accepted: 300,
        found: 300,
    },
    Case {
        names: 300,
        follow: false,
        workers: 4,
        turns: 100_000,
        end: SessionEnd::Completed,
        accepted: 300,
        found: 300,
    },
    Case {
        names: 30,
        follow: true,
        workers: 2,
        turns: 100_000,
        end: SessionEnd::Completed,
        accepted: 60,
        found: 60,
    },
    Case {
        names: 30,
        follow: true,
        workers: 2,
        turns: 1,
        end: SessionEnd::Stalled,
        accepted: 30,
        found: 0,
    },
];

/// The host's addresses of IPv4.
fn addresses_of(alloc: Global, host: &[u8]) -> Result<Spec, NoMemory> {
    Ok(Spec::Address {
        host: Bytes::of(alloc, host)?,
        family: Family::V4,
        nosort: true,
    })
}

/// A script whose one step asks for the first host.
fn asking(alloc: Global) -> Result<Script, Fail> {
    let mut steps = Steps::new(alloc);
    steps.push(Step {
        when: When::Always,
        need: Need::Follow,
        act: Act::Ask(addresses_of(alloc, HOSTS[0])?, Script::blank(alloc, 0)),
    })?;
    Ok(Script::new(1, steps)?)
}

/// So many requests for the hosts' addresses, one host after the other, whose callbacks may ask further.
fn requests(alloc: Global, names: u64) -> Result<Vec<(Spec, Callback<Scripted>)>, Fail> {
    let mut all = Vec::new(alloc);
    for number in 0..names {
        let spec = addresses_of(alloc, HOSTS[(number % 3) as usize])?;
        all.push((spec, Callback::scripted(asking(alloc)?)))?;
    }
    Ok(all)
}

/// What a case comes to. Memory suffices.
fn session_of<R: Threads + Wait + Sync>(
    rt: &R,
    alloc: Global,
    case: &Case,
) -> Result<Session, Fail> {
    if case.workers == 0 || case.workers > 16 {
        return Err("there are no such workers")?;
    }
    let Ok(zone) = Zone::read(alloc, ZONE) else {
        return Err("the zone has a fault")?;
    };
    let world = PeerWorld::make(alloc, zone, 0)?;
    let task = Task {
        requests: requests(alloc, case.names)?,
        orders: Orders {
            follow: case.follow,
            first: false,
            quit: false,
        },
        later: None,
        workers: case.workers,
        turns: case.turns,
    };
    let setting = (Options::plain(alloc)?, Hosts::empty(alloc));
    let Ran { session, .. } = run_shared(alloc, rt, setting, task, world);
    match session {
        Some(session) => Ok(session),
        None => Err("memory was wanting")?,
    }
}

/// Whether it is the address of the host that the request asks for: of so many names one host after the other, and behind them
/// the first.
fn is_found(answer: &Answer, names: u64) -> bool {
    let host = if answer.number <= names {
        answer.number.wrapping_sub(1) % 3
    } else {
        0
    };
    let address = 0xc000_0201_u64.wrapping_add(host);
    answer.status.code() == 0
        && match answer.addresses.as_slice() {
            [Addr::V4(bits)] => u64::from(*bits) == address,
            _ => false,
        }
}

/// Whether it ends so, each request was accepted and told once, and so many of the answers are the hosts' addresses.
fn is_so(session: &Session, case: &Case) -> bool {
    let mut told = 0u64;
    let mut found = 0u64;
    for answer in session.finished.calls.iter() {
        told = told.saturating_add(1);
        if is_found(answer, case.names) {
            found = found.saturating_add(1);
        }
    }
    session.end == case.end
        && session.finished.accepted == case.accepted
        && told == case.accepted
        && found == case.found
        && session.finished.lost == 0
}

// Sessions with one worker and with several come to the end that their turns allow, and each request is told once.
#[test]
fn sessions_end_as_they_should(rt: HostRuntime) -> Result<(), Fail> {
    for (place, case) in CASES.iter().enumerate() {
        let session = session_of(&rt, rt.alloc(), case)?;
        assert!(rt; is_so(&session, case), "case {place}");
    }
    Ok(())
}
