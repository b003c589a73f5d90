//! The calls of a pool, one by one, in one thread.

ghost use Rattle.std.specs.Prelude.{◌≡◌};
ghost use Rattle.ticket_queue.specs.Passes.{IsAt, IsSamePass, MayReceive, MaySend};

use super::notes::Notes;
use super::whole::{drained, made};
use delivery_pool::{Message, Pool};
use std::sync::Wait;
use std::test::*;
use ticket_queue::QueuePass;

/// Offers a ticket, and answers what comes back.
fn offered<R: Wait>(
    rt: &R,
    pool: &Pool<u64>,
    pass: &mut QueuePass<Message<u64>>,
    ticket: u64,
) -> Option<u64>
    requires at { IsAt pool.now.queue pass.old }
    requires sender { MaySend pass.old }
    ensures { IsSamePass pass.old pass.new }
{
    pool.offer(rt, pass, ticket)
}

/// Spends tickets until a stop comes, and answers how many.
fn worked<R: Wait>(
    rt: &R,
    pool: &Pool<u64>,
    pass: &mut QueuePass<Message<u64>>,
    notes: &mut Notes,
) -> u64
    requires at { IsAt pool.now.queue pass.old }
    requires receiver { MayReceive pass.old }
    ensures { IsSamePass pass.old pass.new }
{
    pool.work(rt, pass, notes)
}

// Nobody empties the pool: the second ticket comes back, and the pool is drained of the first.
#[test]
fn a_full_pool_gives_the_ticket_back(rt: HostRuntime) -> Result<(), Fail> {
    let (pool, mut sender, workers) = made(rt.alloc(), 1, 1)?;
    assert!(rt; offered(&rt, &pool, &mut sender, 7).is_none());
    assert!(rt; offered(&rt, &pool, &mut sender, 8) == Some(8));
    let mut notes = Notes::new(rt.alloc());
    assert!(rt; drained(&rt, pool, sender, workers, &mut notes)? == 1);
    assert!(rt; notes.tickets.as_slice() == &[7][..]);
    Ok(())
}

// A worker ends at its stop, and what was sent behind that is drained.
#[test]
fn a_worker_ends_at_its_stop(rt: HostRuntime) -> Result<(), Fail> {
    let (pool, mut sender, mut workers) = made(rt.alloc(), 1, 8)?;
    let mut worker = workers.pop().unwrap();
    assert!(rt; offered(&rt, &pool, &mut sender, 1).is_none());
    assert!(rt; offered(&rt, &pool, &mut sender, 2).is_none());
    pool.shut(&rt, &mut sender);
    assert!(rt; offered(&rt, &pool, &mut sender, 3).is_none());
    let mut notes = Notes::new(rt.alloc());
    assert!(rt; worked(&rt, &pool, &mut worker, &mut notes) == 2);
    assert!(rt; notes.tickets.as_slice() == &[1, 2][..]);
    workers.push(worker)?;
    assert!(rt; drained(&rt, pool, sender, workers, &mut notes)? == 1);
    assert!(rt; notes.tickets.as_slice() == &[1, 2, 3][..]);
    Ok(())
}

// No worker works: all tickets are drained, in the order in which they were sent, and the stops with them.
#[test]
fn what_is_left_is_drained(rt: HostRuntime) -> Result<(), Fail> {
    let (pool, mut sender, workers) = made(rt.alloc(), 2, 8)?;
    assert!(rt; offered(&rt, &pool, &mut sender, 5).is_none());
    assert!(rt; offered(&rt, &pool, &mut sender, 6).is_none());
    pool.shut(&rt, &mut sender);
    assert!(rt; offered(&rt, &pool, &mut sender, 7).is_none());
    let mut notes = Notes::new(rt.alloc());
    assert!(rt; drained(&rt, pool, sender, workers, &mut notes)? == 3);
    assert!(rt; notes.tickets.as_slice() == &[5, 6, 7][..]);
    Ok(())
}
