//! Rounds of a pool, with one worker and with several.

ghost use Rattle.std.specs.Prelude.{◌≡◌, ◌<◌, ◌≤◌, IfOk, vec_len};

use super::notes::Notes;
use super::whole::{Ended, Setup, ran};
use std::alloc::{AllocError, Global};
use std::collections::VecDeque;
use std::sync::Wait;
use std::test::*;
use std::thread::Threads;

/// The tickets 0, 1, 2 and so on, so many.
fn tickets(alloc: Global, count: u64) -> Result<VecDeque<u64>, AllocError> {
    let mut tickets = VecDeque::new(alloc);
    for ticket in 0..count {
        tickets.push_back(ticket)?;
    }
    Ok(tickets)
}

/// So many workers that note what they spend.
fn crew(alloc: Global, workers: u64) -> Result<Vec<Notes>, AllocError>
    ensures { IfOk result (λ crew. vec_len crew ≡ workers) }
{
    let mut crew = Vec::new(alloc);
    for _ in 0..workers {
        crew.push(Notes::new(alloc))?;
    }
    Ok(crew)
}

/// A round of so many workers and tickets, over a pool with so much room.
fn noted<R: Threads + Wait + Sync>(
    rt: &R,
    alloc: Global,
    workers: u64,
    room: u64,
    count: u64,
) -> Result<Ended<Notes>, AllocError>
    requires few { (0 < workers) × (workers ≤ 16) }
    requires room { (0 < room) × (room ≤ 4096) }
{
    let setup = Setup {
        room,
        tickets: tickets(alloc, count)?,
        crew: crew(alloc, workers)?,
        sender: Notes::new(alloc),
    };
    ran(rt, alloc, setup)
}

/// All tickets that were spent in a round, by whomever, in rising order.
fn spent(alloc: Global, ended: &Ended<Notes>) -> Result<Vec<u64>, AllocError> {
    let mut all = Vec::new(alloc);
    all.extend_from_slice(ended.sender.tickets.as_slice())?;
    for worker in &ended.crew {
        all.extend_from_slice(worker.spender.tickets.as_slice())?;
    }
    all.sort_unstable();
    Ok(all)
}

/// Whether each worker counted what it noted.
fn is_counted(ended: &Ended<Notes>) -> bool {
    for worker in &ended.crew {
        if worker.spender.missed || worker.count != worker.spender.tickets.len() as u64 {
            return false;
        }
    }
    true
}

/// Whether these are the tickets 0, 1, 2 and so on, so many.
fn is_each_once(spent: &[u64], count: u64) -> bool {
    let mut next = 0u64;
    for ticket in spent {
        if *ticket != next {
            return false;
        }
        next = next.saturating_add(1);
    }
    next == count
}

/// Whether in a round of so many workers, over a pool with so much room, each of 3,000 tickets is spent once, and each worker
/// counts what it spends.
fn spends_each_once<R: Threads + Wait + Sync>(
    rt: &R,
    alloc: Global,
    workers: u64,
    room: u64,
) -> Result<bool, AllocError>
    requires few { (0 < workers) × (workers ≤ 16) }
    requires room { (0 < room) × (room ≤ 4096) }
{
    let ended = noted(rt, alloc, workers, room, 3_000)?;
    let spent = spent(alloc, &ended)?;
    Ok(is_counted(&ended) && is_each_once(spent.as_slice(), 3_000))
}

// Each ticket is spent once, whoever spends it, also where the queue is full most of the time. All workers end. An assertion
// in a loop over rows has no message: a row that fails is found by leaving out the rows behind it.
#[test]
fn each_ticket_is_spent_once(rt: HostRuntime) -> Result<(), Fail> {
    for (workers, room) in [(1, 64), (2, 64), (4, 64), (16, 64), (1, 1), (4, 1), (2, 3)] {
        assert!(rt; spends_each_once(&rt, rt.alloc(), workers, room)?);
    }
    Ok(())
}
