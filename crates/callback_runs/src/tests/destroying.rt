//! The same moves with a destroy before each of them in turn: every request that was accepted is called once.

use super::rows::{CANCELLED, DESTROYED, asking, destroying};
use super::{Move, told_behind};
use chan_types::{Entry, NoMemory, Script, What};
use std::alloc::Global;
use std::test::Fail;

/// What the moves of `CANCELLED` answer, with a destroy before the one with the index of the row, and at last behind all of them. The
/// destroy that is put in answers 1. A request that it finds pending is delivered with EDESTRUCTION (16), and one that the
/// cancel had completed with ECANCELLED (24); the fourth is accepted where the callback of the first comes before it.
const CANCELLED_ANSWERS: &[&[u64]] = &[
    &[1, 0, 0, 0, 116, 0, 0, 0, 0, 0, 0],
    &[2, 1, 0, 0, 116, 216, 0, 0, 0, 0, 0],
    &[2, 3, 1, 0, 116, 216, 316, 0, 0, 0, 0],
    &[2, 3, 3, 1, 124, 224, 324, 0, 0, 0, 0],
    &[2, 3, 3, 124, 1, 224, 324, 0, 0, 416, 0],
    &[2, 3, 3, 124, 224, 1, 324, 0, 0, 416, 0],
    &[2, 3, 3, 124, 224, 324, 1, 0, 0, 416, 0],
    &[2, 3, 3, 124, 224, 324, 1, 1, 0, 416, 0],
    &[2, 3, 3, 124, 224, 324, 1, 4, 1, 400, 0],
    &[2, 3, 3, 124, 224, 324, 1, 4, 400, 1, 0],
    &[2, 3, 3, 124, 224, 324, 1, 4, 400, 0, 1],
];

/// What the moves of `DESTROYED` answer. Behind the callback that destroys the channel the destroy that is put in answers 0.
const DESTROYED_ANSWERS: &[&[u64]] = &[
    &[1, 0, 0, 0, 116, 0, 0, 0, 0, 0],
    &[2, 1, 0, 0, 116, 216, 0, 0, 0, 0],
    &[2, 3, 1, 0, 116, 216, 316, 0, 0, 0],
    &[2, 3, 1, 1, 100, 216, 316, 0, 0, 0],
    &[2, 3, 1, 100, 0, 216, 316, 0, 0, 0],
    &[2, 3, 1, 100, 216, 0, 316, 0, 0, 0],
    &[2, 3, 1, 100, 216, 316, 0, 0, 0, 0],
    &[2, 3, 1, 100, 216, 316, 0, 0, 0, 0],
    &[2, 3, 1, 100, 216, 316, 0, 0, 0, 0],
    &[2, 3, 1, 100, 216, 316, 0, 0, 0, 0],
];

/// A script that a callback performs.
#[derive(Clone, Copy)]
enum Plan {
    Asks,
    Destroys,
}

/// Its script.
fn script_of(alloc: Global, plan: Plan) -> Result<Script, Fail> {
    match plan {
        Plan::Asks => asking(alloc),
        Plan::Destroys => destroying(alloc),
    }
}

/// The moves, with a destroy before the one with this index.
fn with_destroy(alloc: Global, moves: &[Move], at: usize) -> Result<Vec<Move>, NoMemory> {
    let mut all = Vec::new(alloc);
    let mut index = 0usize;
    for to_make in moves {
        if index == at {
            all.push(Move::Destroy)?;
        }
        all.push(*to_make)?;
        index = index.saturating_add(1);
    }
    if index <= at {
        all.push(Move::Destroy)?;
    }
    Ok(all)
}

/// Whether the moves answer so, and call each accepted request once; on a channel that is destroyed before, where it is said.
fn answers_so(
    alloc: Global,
    is_destroyed: bool,
    plan: Plan,
    moves: &[Move],
    answers: &[u64],
) -> Result<bool, Fail> {
    let script = script_of(alloc, plan)?;
    let (told, entries) = told_behind(alloc, is_destroyed, script, moves)?;
    Ok(told.as_slice() == answers && is_called_once(entries.as_slice(), told.as_slice()))
}

/// Whether each request that was accepted was delivered once, and nothing else was.
fn is_called_once(entries: &[Entry], told: &[u64]) -> bool {
    let mut accepted = 0u64;
    for entry in entries {
        if let What::Accept { number, .. } = entry.what {
            if deliveries_of(told, number) != 1 {
                return false;
            }
            accepted = accepted.saturating_add(1);
        }
    }
    accepted == deliveries(told)
}

/// How often this request was delivered, by what the moves answered: a delivery answers a hundred times its number, and more.
fn deliveries_of(told: &[u64], number: u64) -> u64 {
    let mut count = 0u64;
    for answer in told {
        if *answer / 100 == number {
            count = count.saturating_add(1);
        }
    }
    count
}

/// How many deliveries there were.
fn deliveries(told: &[u64]) -> u64 {
    let mut count = 0u64;
    for answer in told {
        if 100 <= *answer {
            count = count.saturating_add(1);
        }
    }
    count
}

/// The index of the first row that isn't answered so, or how many rows there are.
fn first_wrong(alloc: Global, plan: Plan, moves: &[Move], rows: &[&[u64]]) -> Result<usize, Fail> {
    let mut at = 0usize;
    for answers in rows {
        let all = with_destroy(alloc, moves, at)?;
        if !answers_so(alloc, false, plan, all.as_slice(), answers)? {
            return Ok(at);
        }
        at = at.saturating_add(1);
    }
    Ok(at)
}

#[test]
fn a_destroy_before_each_call_of_a_cancel(rt: HostRuntime) -> Result<(), Fail> {
    let wrong = first_wrong(rt.alloc(), Plan::Asks, &CANCELLED, CANCELLED_ANSWERS)?;
    assert_eq!(rt; wrong, 11);
    Ok(())
}

#[test]
fn a_destroy_before_each_call_of_a_destroy(rt: HostRuntime) -> Result<(), Fail> {
    let wrong = first_wrong(rt.alloc(), Plan::Destroys, &DESTROYED, DESTROYED_ANSWERS)?;
    assert_eq!(rt; wrong, 10);
    Ok(())
}

/// A channel that is destroyed before its first request accepts none, and calls nothing: each move answers 0.
#[test]
fn a_destroy_before_the_first_request(rt: HostRuntime) -> Result<(), Fail> {
    assert!(rt; answers_so(rt.alloc(), true, Plan::Asks, &CANCELLED, &[0; 10])?);
    assert!(rt; answers_so(rt.alloc(), true, Plan::Destroys, &DESTROYED, &[0; 9])?);
    Ok(())
}
