//! A worker's part of a round.
ghost use Rattle.ticket_queue.specs.Passes.{IsAt, MayReceive};

use crate::message::Message;
use crate::part::Part;
use crate::pool::Pool;
use crate::spender::Spender;
use std::sync::Wait;
use ticket_queue::QueuePass;

/// What a worker's thread works with: a pass of this pool, what spends its tickets, and how many that spent in its last
/// round.
#[derive(Drop)]
pub struct Worker<'p, T: Drop, S: Drop> {
    pub pool: &'p Pool<T>,
    pub pass: QueuePass<Message<T>>,
    pub spender: S,
    pub count: u64,
    ghost at: { IsAt pool.now.queue pass },
    ghost receiver: { MayReceive pass },
}

impl<'p, T: Drop, S: Spender<T> + Drop, R: Wait> Part<R> for Worker<'p, T, S> {
    ghost use Rattle.delivery_pool.specs.Spending.{Works};

    ghost does = { λ old new. Works S.spends new.count old.pass (S.state old.spender) new.pass (S.state new.spender) };

    /// Spends tickets until a stop comes.
    fn run(&mut self, rt: &R) {
        let pool = self.pool;
        self.count = pool.work(rt, &mut self.pass, &mut self.spender);
    }
}
