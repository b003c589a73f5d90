//! How a queue is made, with all of its passes.
ghost use Rattle.std.specs.Prelude.{◌≡◌, ◌+◌, ◌-◌, ◌<◌, ◌≤◌, [], IfOk, vec_capacity, vec_len};
ghost use Rattle.ticket_queue.specs.Passes.{IsAt, IsNewQueue, new_pass, receivers_of};

use crate::pass::QueuePass;
use crate::queue::Queue;
use crate::rule::{Balance, Cut};
use crossbeam_channel::bounded_with;
use std::alloc::{AllocError, Global};

/// A queue with room for so many messages, and all of its passes: the sender's first, and one for each receiver. For want
/// of memory nothing is left of it.
pub fn make<M: Drop>(
    alloc: Global,
    receivers: u64,
    room: u64,
) -> Result<(Queue<M>, Vec<QueuePass<M>>), AllocError>
    requires few { (0 < receivers) × (receivers ≤ 64) }
    requires room { (0 < room) × (room ≤ 4096) }
    ensures { IfOk result (λ made. IsNewQueue receivers room made.0 made.1.items) }
{
    let mut all = Vec::with_capacity(alloc, receivers as usize + 1)?;
    let (queue, mut first) = open(alloc, room)?;
    add_receivers(&queue, &mut first, receivers, &mut all);
    all.insert(0, first).unwrap();
    Ok((queue, all))
}

/// A queue with its first pass, which has all shares.
fn open<M: Drop>(alloc: Global, room: u64) -> Result<(Queue<M>, QueuePass<M>), AllocError>
    requires { (0 < room) × (room ≤ 4096) }
    ensures { IfOk result (λ made. (made.0.room ≡ room) × (made.1 ≡ new_pass made.0 1024)) }
{
    let (sender, receiver, token) = bounded_with::<_, _, Balance<M>, _>(alloc, room as usize)?;
    Ok((Queue { sender, receiver }, QueuePass { token }))
}

/// Makes the receivers' passes, each with one of the first pass's shares.
fn add_receivers<M: Drop>(
    queue: &Queue<M>,
    first: &mut QueuePass<M>,
    receivers: u64,
    all: &mut Vec<QueuePass<M>>,
)
    requires first { (first.old ≡ new_pass queue.now 1024) × (receivers ≤ 64) }
    requires room { (all.old.items ≡ []) × (vec_len all.old ≡ 0) × (receivers < vec_capacity all.old) }
    ensures first { first.new ≡ new_pass queue.now (1024 - receivers) }
    ensures others { all.new.items ≡ receivers_of queue.now receivers }
    ensures room { vec_len all.new < vec_capacity all.new }
{
    for _ in 0..receivers {
        let other = cut(queue, first);
        all.push_reserved(other);
    }
}

/// Cuts off one share.
fn cut<M: Drop>(queue: &Queue<M>, first: &mut QueuePass<M>) -> QueuePass<M>
    requires at { IsAt queue.now first.old }
    requires many { 513 < first.old.share }
    ensures first { first.new ≡ record first.old { share = first.old.share - 1 } }
    ensures other { result ≡ new_pass queue.now 1 }
{
    let token = queue.sender.another::<Cut<M>>(&mut first.token);
    QueuePass { token }
}
