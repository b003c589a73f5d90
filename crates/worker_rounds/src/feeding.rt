//! The sender's part of a round whose tickets come one by one.
ghost use Rattle.std.specs.Prelude.{◌≡◌, Option};
ghost use Rattle.delivery_pool.specs.Parts.{EachDoes};
ghost use Rattle.delivery_pool.specs.Rounds.{WorkersPart};
ghost use Rattle.ticket_queue.specs.Passes.{IsAt, MaySend};
ghost use Rattle.worker_rounds.specs.Feeding.{Feeds, FeedsOne};

use delivery_pool::{Message, Part, Pool, Spender, Worker, beside};
use std::sync::Wait;
use std::thread::Threads;
use ticket_queue::QueuePass;

/// Where a pool's tickets come from, and what spends those that come back.
pub trait Source<T> {
    // a ticket was drawn, or no more is to come in this round
    ghost draws: { Self → Option T → Self → Type 0 };

    // a ticket was spent
    ghost spends: { Self → T → Self → Type 0 };

    /// The next ticket, if one is to come in this round.
    fn draw(&mut self) -> Option<T>
        ensures { draws self.old result self.new };

    /// Spends a ticket that came back.
    fn spend(&mut self, ticket: T)
        ensures { spends self.old ticket self.new };
}

/// What the sender's thread works with: its pass of this pool, and where the tickets come from.
#[derive(Drop)]
pub struct Feeder<'p, T: Drop, S: Drop> {
    pub pool: &'p Pool<T>,
    pub pass: QueuePass<Message<T>>,
    pub source: S,
    ghost at: { IsAt pool.now.queue pass },
    ghost sender: { MaySend pass },
}

impl<'p, T: Drop, S: Source<T> + Drop, R: Wait> Part<R> for Feeder<'p, T, S> {
    ghost use Rattle.std.specs.Prelude.{◌≡◌};
    ghost use Rattle.worker_rounds.specs.Feeding.{Feeds};

    ghost does = { λ old new. (new.pool.now ≡ old.pool.now) × Feeds S.draws S.spends old.pool.now old.source old.pass new.source new.pass };

    /// Offers each ticket that is drawn, spends those that are given back, and then tells the workers to stop.
    fn run(&mut self, rt: &R) {
        let pool = self.pool;
        feed(rt, pool, &mut self.pass, &mut self.source);
    }
}

/// Offers each ticket that is drawn, spends those that are given back, and then tells the workers to stop.
fn feed<T: Drop, S: Source<T>, R: Wait>(
    rt: &R,
    pool: &Pool<T>,
    pass: &mut QueuePass<Message<T>>,
    source: &mut S,
)
    requires at { IsAt pool.now.queue pass.old }
    requires sender { MaySend pass.old }
    ensures at { IsAt pool.now.queue pass.new × MaySend pass.new }
    ensures feeds { Feeds S.draws S.spends pool.now source.old pass.old source.new pass.new }
{
    for _ in rt.forever() {
        let Some(ticket) = source.draw() else {
            pool.shut(rt, pass);
            return;
        };
        offer_or_spend(rt, pool, pass, source, ticket);
    }
    unreachable!()
}

/// Offers a ticket, and spends it where it is given back.
fn offer_or_spend<T: Drop, S: Source<T>, R: Wait>(
    rt: &R,
    pool: &Pool<T>,
    pass: &mut QueuePass<Message<T>>,
    source: &mut S,
    ticket: T,
)
    requires at { IsAt pool.now.queue pass.old }
    requires sender { MaySend pass.old }
    ensures at { IsAt pool.now.queue pass.new × MaySend pass.new }
    ensures feeds { FeedsOne S.spends pool.now.queue ticket source.old pass.old source.new pass.new }
{
    if let Some(back) = pool.offer(rt, pass, ticket) {
        source.spend(back);
    }
}

/// The feeder beside workers, each in a thread of its own. The threads are joined at the end.
pub fn run_beside<
    'p,
    T: Drop + Send,
    S: Source<T> + Drop + Send,
    W: Spender<T> + Drop + Send,
    R: Threads + Wait + Sync,
>(rt: &R, feeder: &mut Feeder<'p, T, S>, workers: &mut Vec<Worker<'p, T, W>>)
    ensures pool { feeder.new.pool.now ≡ feeder.old.pool.now }
    ensures feeds { Feeds S.draws S.spends feeder.old.pool.now feeder.old.source feeder.old.pass feeder.new.source feeder.new.pass }
    ensures works { EachDoes (WorkersPart W.spends W.state) workers.old.items workers.new.items }
{
    beside(rt, feeder, workers.as_mut_slice());
}
