//! A channel from its making to its end, with workers.

ghost use Rattle.std.specs.Prelude.{◌<◌, ◌≤◌};

use chan_types::{Bytes, Family, NoMemory, Orders, Script, Spec};
use completion_ticket::{Callback, Done};
use hosts_file::Hosts;
use resolv_options::Options;
use shared_channel::Finished;
use std::alloc::Global;
use std::sync::Wait;
use std::test::Fail;
use std::thread::Threads;
use worker_rounds::{Plan, Pump, Whole, run_whole};

/// Callbacks ask further.
const FOLLOW: Orders = Orders {
    follow: true,
    first: false,
    quit: false,
};

/// The addresses of 192.0.2.1, which are answered at once.
pub fn literal(alloc: Global) -> Result<Spec, NoMemory> {
    Ok(Spec::Address {
        host: Bytes::of(alloc, b"192.0.2.1")?,
        family: Family::Any,
        nosort: false,
    })
}

/// What is left of a channel that so many workers served, with these requests, over a pool with so much room. Memory
/// suffices, also for the workers.
pub fn ended<B: Done + Drop + Send, P: Pump + Drop + Send, R: Threads + Wait + Sync>(
    rt: &R,
    alloc: Global,
    workers: u64,
    room: u64,
    requests: Vec<(Spec, Callback<B>)>,
    pump: P,
) -> Result<Whole<P>, Fail> {
    if workers == 0 || workers > 16 || room == 0 || room > 4096 {
        return Err("there is no such pool")?;
    }
    let setting = (Options::plain(alloc)?, Hosts::empty(alloc));
    let plan = Plan {
        workers,
        room,
        orders: FOLLOW,
    };
    let whole = run_whole(alloc, rt, setting, requests, plan, pump)?;
    if whole.refused {
        return Err("memory for the workers was wanting")?;
    }
    Ok(whole)
}

/// Whether so many requests were accepted, each of them was called once with one of these statuses, by code, and none was
/// lost.
pub fn has_called(
    alloc: Global,
    finished: &Finished,
    accepted: u64,
    codes: &[u8],
) -> Result<bool, NoMemory> {
    let mut numbers = Vec::new(alloc);
    let mut coded = true;
    for answer in finished.calls.iter() {
        numbers.push(answer.number)?;
        coded = coded && codes.contains(&answer.status.code());
    }
    numbers.sort_unstable();
    let once = numbers.iter().enumerate().all(|(place, number)| *number
        == (place as u64).wrapping_add(1));
    Ok(
        coded
            && once
            && numbers.len() as u64 == accepted
            && finished.accepted == accepted
            && finished.lost == 0,
    )
}
