//! Many requests, with several workers.

use super::runs::{ended, has_called, literal};
use chan_types::{Act, Need, Script, Spec, Step, Steps, When};
use completion_ticket::{Callback, Scripted};
use std::alloc::Global;
use std::sync::Wait;
use std::test::*;
use std::thread::Threads;
use worker_rounds::Idle;

/// A script whose one step does this always.
pub fn always(alloc: Global, act: Act) -> Result<Script, Fail> {
    let mut steps = Steps::new(alloc);
    steps.push(Step {
        when: When::Always,
        need: Need::Nothing,
        act,
    })?;
    Ok(Script::new(1, steps)?)
}

/// A script that asks once more, so many times one behind the other.
fn asking(alloc: Global, times: u64) -> Result<Script, Fail> {
    let mut script = Script::blank(alloc, 0);
    for _ in 0..times {
        script = always(alloc, Act::Ask(literal(alloc)?, script))?;
    }
    Ok(script)
}

/// Such requests, whose callbacks ask so many times further.
pub fn requests(
    alloc: Global,
    count: u64,
    times: u64,
) -> Result<Vec<(Spec, Callback<Scripted>)>, Fail> {
    let mut all = Vec::new(alloc);
    for _ in 0..count {
        all.push((literal(alloc)?, Callback::scripted(asking(alloc, times)?)))?;
    }
    Ok(all)
}

/// A case: how many workers, over a pool with how much room, how many requests, and how many times the callback of each asks
/// further.
#[derive(Clone, Copy)]
struct Row {
    workers: u64,
    room: u64,
    count: u64,
    times: u64,
}

fn make_row(workers: u64, room: u64, count: u64, times: u64) -> Row {
    Row {
        workers,
        room,
        count,
        times,
    }
}

/// Whether each request of a case, and each that its callbacks asked, was called once, with status 0.
fn ends_so<R: Threads + Wait + Sync>(rt: &R, alloc: Global, row: &Row) -> Result<bool, Fail> {
    let requests = requests(alloc, row.count, row.times)?;
    let whole = ended(rt, alloc, row.workers, row.room, requests, Idle)?;
    let all = row.count.wrapping_mul(row.times.wrapping_add(1));
    Ok(has_called(alloc, &whole.finished, all, &[0])?)
}

// Each request is called once, with its answer, by one worker and by several, with room enough, and with so little that the
// owner has to spend most tickets; and so are those that callbacks ask, in the same round or a later one.
#[test]
fn each_request_is_called_once(rt: HostRuntime) -> Result<(), Fail> {
    let rows = [
        make_row(1, 64, 300, 0),
        make_row(2, 64, 300, 0),
        make_row(4, 64, 300, 0),
        make_row(16, 64, 300, 0),
        make_row(1, 1, 300, 0),
        make_row(4, 1, 300, 0),
        make_row(2, 3, 300, 0),
        make_row(2, 4, 20, 2),
        make_row(4, 64, 20, 3),
    ];
    for (place, row) in rows.iter().enumerate() {
        assert!(rt; ends_so(&rt, rt.alloc(), row)?, "row {place}");
    }
    Ok(())
}
