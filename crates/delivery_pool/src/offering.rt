//! The sender's part of a round.
ghost use Rattle.std.specs.Prelude.{◌≡◌, []};
ghost use Rattle.ticket_queue.specs.Passes.{IsAt, MaySend};
ghost use Rattle.delivery_pool.specs.Spending.{OffersAll, OffersOne};

use crate::message::Message;
use crate::part::Part;
use crate::pool::Pool;
use crate::spender::Spender;
use std::collections::VecDeque;
use std::sync::Wait;
use ticket_queue::QueuePass;

/// What the sender's thread works with: its pass of this pool, the tickets to offer, and what spends those that come back.
#[derive(Drop)]
pub struct Sender<'p, T: Drop, S: Drop> {
    pub pool: &'p Pool<T>,
    pub pass: QueuePass<Message<T>>,
    pub tickets: VecDeque<T>,
    pub spender: S,
    ghost at: { IsAt pool.now.queue pass },
    ghost sender: { MaySend pass },
}

impl<'p, T: Drop, S: Spender<T> + Drop, R: Wait> Part<R> for Sender<'p, T, S> {
    ghost use Rattle.std.specs.Prelude.{◌≡◌, []};
    ghost use Rattle.delivery_pool.specs.Spending.{OffersAll};

    ghost does = { λ old new. (new.tickets.items ≡ [])
        × OffersAll S.spends old.pool.now old.tickets.items old.pass (S.state old.spender) new.pass (S.state new.spender) };

    /// Offers each ticket, spends those that are given back, and tells the workers to stop.
    fn run(&mut self, rt: &R) {
        let pool = self.pool;
        offer_all(
            rt,
            pool,
            &mut self.pass,
            &mut self.tickets,
            &mut self.spender,
        );
    }
}

/// Offers each ticket, in order, and spends those that are given back. Then tells the workers to stop.
pub fn offer_all<T: Drop, S: Spender<T>, R: Wait>(
    rt: &R,
    pool: &Pool<T>,
    pass: &mut QueuePass<Message<T>>,
    tickets: &mut VecDeque<T>,
    spender: &mut S,
)
    requires at { IsAt pool.now.queue pass.old }
    requires sender { MaySend pass.old }
    ensures at { IsAt pool.now.queue pass.new × MaySend pass.new }
    ensures none { tickets.new.items ≡ [] }
    ensures offers { OffersAll S.spends pool.now tickets.old.items pass.old (S.state spender.old) pass.new (S.state spender.new) }
{
    while let Some(ticket) = tickets.pop_front() {
        offer_one(rt, pool, pass, ticket, spender);
    }
    pool.shut(rt, pass);
}

/// Offers a ticket, and spends it where it is given back.
fn offer_one<T: Drop, S: Spender<T>, R: Wait>(
    rt: &R,
    pool: &Pool<T>,
    pass: &mut QueuePass<Message<T>>,
    ticket: T,
    spender: &mut S,
)
    requires at { IsAt pool.now.queue pass.old }
    requires sender { MaySend pass.old }
    ensures at { IsAt pool.now.queue pass.new × MaySend pass.new }
    ensures offers { OffersOne S.spends pool.now.queue ticket pass.old (S.state spender.old) pass.new (S.state spender.new) }
{
    if let Some(back) = pool.offer(rt, pass, ticket) {
        spender.spend(back);
    }
}
