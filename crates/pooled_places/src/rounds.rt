//! The rounds of a pool of one channel's tickets.

ghost use Rattle.std.specs.Prelude.{◌≡◌};
ghost use Rattle.delivery_pool.specs.Parts.{EachDoes};
ghost use Rattle.delivery_pool.specs.Rounds.{SendersPart, WorkersPart};
ghost use Rattle.ticket_queue.specs.Passes.{IsAt, MayReceive, MaySend};
ghost use Rattle.pooled_places.specs.Delivery.{SpendsTicket};

use crate::deliverer::Deliverer;
use crate::pool::{ChannelPool, PoolPass};
use crate::ticket::ChannelTicket;
use completion_ticket::Done;
use delivery_pool::{Sender, Worker};
use std::collections::VecDeque;
use std::sync::Wait;
use std::thread::Threads;

impl<'c, B: Done + Drop> ChannelPool<'c, B> {
    /// A worker with this pass and a place at this channel.
    pub fn worker<'p, R: Wait>(
        &'p self,
        pass: PoolPass<'c, B>,
        deliverer: Deliverer<'c, B, R>,
    ) -> Worker<'p, ChannelTicket<'c, B>, Deliverer<'c, B, R>>
        requires channel { deliverer.place.lock ≡ self.now.channel }
        requires at { IsAt self.now.pool.queue pass }
        requires receiver { MayReceive pass }
        ensures pool { result.pool.now ≡ self.now.pool }
        ensures pass { result.pass ≡ pass.entry }
        ensures spender { result.spender ≡ deliverer.entry }
    {
        Worker {
            pool: &self.pool,
            pass,
            spender: deliverer,
            count: 0,
        }
    }
}

/// The sender's part beside the workers', each in a thread of its own. The threads are joined at the end.
pub fn run_round<'p, 'c, B: Done + Drop + Send, R: Threads + Wait + Sync>(
    rt: &R,
    sender: &mut Sender<'p, ChannelTicket<'c, B>, Deliverer<'c, B, R>>,
    workers: &mut [Worker<'p, ChannelTicket<'c, B>, Deliverer<'c, B, R>>],
)
    ensures offers { SendersPart SpendsTicket (λ its. (its.orders, its.place)) sender.old sender.new }
    ensures works { EachDoes (WorkersPart SpendsTicket (λ its. (its.orders, its.place))) workers.old workers.new }
{
    delivery_pool::run_round(rt, sender, workers);
}
