//! The pool.
ghost use Rattle.std.specs.Prelude.{◌≡◌, ◌<◌, ◌≤◌, IfNone, IfOk, IfSome};
ghost use Rattle.ticket_queue.specs.Passes.{IsAt, MayReceive, MaySend, WasFull, after_send};
ghost use Rattle.delivery_pool.specs.declared.message.Message.TheVariants.{Ticket};
ghost use Rattle.delivery_pool.specs.Pools.{IsNewPool, after_stops};
ghost use Rattle.delivery_pool.specs.Spending.{Works};

use crate::message::Message;
use crate::spender::Spender;
use crate::spending::spend_ticket;
use std::alloc::{AllocError, Global};
use std::marker::Model;
use std::sync::Wait;
use ticket_queue::{Queue, QueuePass, make};

/// Tickets on their way to workers. Contracts see its queue, and how many workers it has.
#[derive(Drop)]
pub struct Pool<T: Drop> {
    pub(crate) queue: Queue<Message<T>>,
    pub(crate) workers: u64,
}

impl<T: Drop> Model for Pool<T> {
    ghost use Rattle.delivery_pool.specs.Pools.{PoolState};

    ghost Value = { PoolState T };

    ghost view = { λ pool. record { queue = pool.queue; workers = pool.workers } };
}

impl<T: Drop> Pool<T> {
    /// A pool with room for so many messages, and all of its passes: the sender's first, and one for each worker. For want
    /// of memory nothing is left of it.
    pub fn make(
        alloc: Global,
        workers: u64,
        room: u64,
    ) -> Result<(Pool<T>, Vec<QueuePass<Message<T>>>), AllocError>
        requires few { (0 < workers) × (workers ≤ 16) }
        requires room { (0 < room) × (room ≤ 4096) }
        ensures { IfOk result (λ made. IsNewPool workers room made.0 made.1.items) }
    {
        let (queue, passes) = make(alloc, workers, room)?;
        Ok((Pool { queue, workers }, passes))
    }

    /// Offers a ticket to the workers, or gives it back where the pool was full at a moment of this call. It doesn't wait
    /// for room.
    pub fn offer<R: Wait>(&self, rt: &R, pass: &mut QueuePass<Message<T>>, ticket: T) -> Option<T>
        requires at { IsAt self.now.queue pass.old }
        requires sender { MaySend pass.old }
        ensures sent { IfNone result (pass.new ≡ after_send pass.old (Ticket ticket)) }
        ensures back { IfSome result (λ back. (back ≡ ticket) × (pass.new ≡ pass.old) × WasFull self.now.queue pass.old) }
    {
        match self.queue.try_send(rt, pass, Message::Ticket(ticket))? {
            Message::Ticket(back) => Some(back),
            Message::Stop => unreachable!(),
        }
    }

    /// Spends tickets until a stop comes, and answers how many. It waits for each message.
    pub fn work<S: Spender<T>, R: Wait>(
        &self,
        rt: &R,
        pass: &mut QueuePass<Message<T>>,
        spender: &mut S,
    ) -> u64
        requires at { IsAt self.now.queue pass.old }
        requires receiver { MayReceive pass.old }
        ensures { Works S.spends result pass.old (S.state spender.old) pass.new (S.state spender.new) }
    {
        let mut count: u64 = 0;
        for _ in rt.forever() {
            match self.queue.receive(rt, pass) {
                Message::Stop => return count,
                Message::Ticket(ticket) => count = spend_ticket(ticket, spender, count),
            }
        }
        unreachable!()
    }

    /// Sends one stop for each worker. It waits for room.
    pub fn shut<R: Wait>(&self, rt: &R, pass: &mut QueuePass<Message<T>>)
        requires at { IsAt self.now.queue pass.old }
        requires sender { MaySend pass.old }
        ensures { pass.new ≡ after_stops self.now.workers pass.old }
    {
        for _ in 0..self.workers {
            self.queue.send(rt, pass, Message::Stop);
        }
    }
}
