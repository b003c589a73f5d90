//! The end of a pool.
ghost use Rattle.std.specs.Prelude.{◌≡◌, ◌++◌};
ghost use Rattle.ticket_queue.specs.Passes.{HasAllShares, IsAt};
ghost use Rattle.delivery_pool.specs.Pools.{AreAll, IsJoined};
ghost use Rattle.delivery_pool.specs.Spending.{Drains, SpendsRest};

use crate::message::Message;
use crate::pool::Pool;
use crate::spender::Spender;
use crate::spending::spend_message;
use std::sync::Wait;
use ticket_queue::{Queue, QueuePass};

impl<T: Drop> Pool<T> {
    /// Ends a pool: joins all of its passes, and spends what nobody has received. Answers how many tickets those were.
    pub fn drain<S: Spender<T>, R: Wait>(
        self,
        rt: &R,
        passes: Vec<QueuePass<Message<T>>>,
        spender: &mut S,
    ) -> u64
        requires { AreAll self.queue passes.items }
        ensures { Drains S.spends passes.items result (S.state spender.old) (S.state spender.new) }
    {
        let Pool { queue, .. } = self;
        let mut all = join_all(&queue, passes);
        spend_rest(rt, &queue, &mut all, spender)
    }
}

/// Joins all passes into the first.
fn join_all<T: Drop>(
    queue: &Queue<Message<T>>,
    mut passes: Vec<QueuePass<Message<T>>>,
) -> QueuePass<Message<T>>
    requires { AreAll queue.now passes.items }
    ensures at { IsAt queue.now result }
    ensures joined { IsJoined passes.items result }
{
    let mut all = passes.pop().unwrap();
    while let Some(next) = passes.pop() {
        all = queue.join(next, all);
    }
    all
}

/// Spends what is left in the queue.
fn spend_rest<T: Drop, S: Spender<T>, R: Wait>(
    rt: &R,
    queue: &Queue<Message<T>>,
    all: &mut QueuePass<Message<T>>,
    spender: &mut S,
) -> u64
    requires at { IsAt queue.now all.old }
    requires all { HasAllShares all.old }
    ensures { SpendsRest S.spends all.old result (S.state spender.old) (S.state spender.new) }
{
    let mut count: u64 = 0;
    for _ in rt.forever() {
        let Some(message) = queue.receive_rest(rt, all) else {
            return count;
        };
        count = spend_message(message, spender, count);
    }
    unreachable!()
}
