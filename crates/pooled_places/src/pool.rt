//! A pool of one channel's tickets.

ghost use Rattle.std.specs.Prelude.{◌≡◌, ◌<◌, ◌≤◌, IfNone, IfOk, IfSome};
ghost use Rattle.ticket_queue.specs.Passes.{IsAt, MayReceive, MaySend, WasFull, after_send};
ghost use Rattle.delivery_pool.specs.declared.message.Message.TheVariants.{Ticket};
ghost use Rattle.delivery_pool.specs.Pools.{AreAll, IsNewPool, after_stops};
ghost use Rattle.pooled_places.specs.Delivery.{DrainsAt, WorksAt};

use crate::deliverer::Deliverer;
use crate::ticket::ChannelTicket;
use chan_types::NoMemory;
use completion_ticket::Done;
use delivery_pool::{Message, Pool};
use shared_channel::Channel;
use std::alloc::Global;
use std::marker::Model;
use std::sync::Wait;
use ticket_queue::QueuePass;

/// A right to call a pool: the sender's, or a worker's.
pub type PoolPass<'c, B> = QueuePass<Message<ChannelTicket<'c, B>>>;

/// Tickets of one channel on their way to workers. Contracts see the channel, and the pool.
#[derive(Drop)]
pub struct ChannelPool<'c, B: Done + Drop> {
    channel: &'c Channel<B>,
    pub(crate) pool: Pool<ChannelTicket<'c, B>>,
}

impl<'c, B: Done + Drop> Model for ChannelPool<'c, B> {
    ghost use Rattle.std.specs.Coded.{codes};
    ghost use Rattle.chan_types.specs.PlanCode.{moves_code};
    ghost use Rattle.pooled_places.specs.Tickets.{ChannelPoolState};

    ghost Value = { ChannelPoolState };

    ghost coded = { Prim.hlevel (codes, moves_code) };

    ghost view = { λ its. record { channel = its.channel.now; pool = its.pool } };
}

impl<'c, B: Done + Drop> ChannelPool<'c, B> {
    /// A pool for this channel's tickets with room for so many messages, and all of its passes: the sender's first, and one
    /// for each worker. For want of memory nothing is left of it.
    pub fn make(
        alloc: Global,
        channel: &'c Channel<B>,
        workers: u64,
        room: u64,
    ) -> Result<(ChannelPool<'c, B>, Vec<PoolPass<'c, B>>), NoMemory>
        requires few { (0 < workers) × (workers ≤ 16) }
        requires room { (0 < room) × (room ≤ 4096) }
        ensures channel { IfOk result (λ made. made.0.channel ≡ channel.now) }
        ensures new { IfOk result (λ made. IsNewPool workers room made.0.pool made.1.items) }
    {
        let (pool, passes) = Pool::make(alloc, workers, room)?;
        Ok((ChannelPool { channel, pool }, passes))
    }

    /// The pool alone, without its channel: for a sender that is a part of a round of its own.
    pub fn carrier(&self) -> &Pool<ChannelTicket<'c, B>>
        ensures { result.now ≡ self.now.pool }
    {
        &self.pool
    }

    /// Offers a ticket of this channel to the workers, or gives it back where the pool was full at a moment of this call.
    /// It doesn't wait for room.
    pub fn offer<R: Wait>(
        &self,
        rt: &R,
        pass: &mut PoolPass<'c, B>,
        ticket: ChannelTicket<'c, B>,
    ) -> Option<ChannelTicket<'c, B>>
        requires channel { ticket.channel ≡ self.now.channel }
        requires at { IsAt self.now.pool.queue pass.old }
        requires sender { MaySend pass.old }
        ensures sent { IfNone result (pass.new ≡ after_send pass.old (Ticket ticket.entry)) }
        ensures back { IfSome result
            (λ back. (back ≡ ticket.entry) × (pass.new ≡ pass.old) × WasFull self.now.pool.queue pass.old) }
    {
        self.pool.offer(rt, pass, ticket)
    }

    /// Spends tickets through a place at this channel until a stop comes, and answers how many. It waits for each message.
    pub fn work<R: Wait>(
        &self,
        rt: &R,
        pass: &mut PoolPass<'c, B>,
        deliverer: &mut Deliverer<'c, B, R>,
    ) -> u64
        requires channel { deliverer.old.place.lock ≡ self.now.channel }
        requires at { IsAt self.now.pool.queue pass.old }
        requires receiver { MayReceive pass.old }
        ensures { WorksAt result pass.old (deliverer.old.orders, deliverer.old.place)
            pass.new (deliverer.new.orders, deliverer.new.place) }
    {
        self.pool.work(rt, pass, deliverer)
    }

    /// Sends one stop for each worker. It waits for room.
    pub fn shut<R: Wait>(&self, rt: &R, pass: &mut PoolPass<'c, B>)
        requires at { IsAt self.now.pool.queue pass.old }
        requires sender { MaySend pass.old }
        ensures { pass.new ≡ after_stops self.now.pool.workers pass.old }
    {
        self.pool.shut(rt, pass);
    }

    /// Ends a pool: joins all of its passes, and spends what nobody has received through a place at this channel. Answers
    /// how many tickets those were.
    pub fn drain<R: Wait>(
        self,
        rt: &R,
        passes: Vec<PoolPass<'c, B>>,
        deliverer: &mut Deliverer<'c, B, R>,
    ) -> u64
        requires channel { deliverer.old.place.lock ≡ self.channel }
        requires all { AreAll self.pool.queue passes.items }
        ensures { DrainsAt passes.entry.items result
            (deliverer.old.orders, deliverer.old.place) (deliverer.new.orders, deliverer.new.place) }
    {
        let ChannelPool { pool, .. } = self;
        pool.drain(rt, passes, deliverer)
    }
}
