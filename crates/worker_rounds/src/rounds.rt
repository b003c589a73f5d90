//! Rounds, until all is done.

ghost use Rattle.std.specs.Prelude.{◌≡◌};
ghost use Rattle.worker_rounds.specs.Rounds.{RunsRounds};

use crate::feeding::{Feeder, run_beside};
use crate::keeper::Keeper;
use crate::pump::Pump;
use completion_ticket::Done;
use delivery_pool::Worker;
use pooled_places::{ChannelTicket, Deliverer};
use std::sync::Wait;
use std::thread::Threads;

/// Rounds, until all is done. In a round the owner takes what is ready and offers it to the workers, spends what comes back,
/// and does what there is to do while nothing is ready; the workers spend what they get. A round ends with a stop for each
/// worker, and with all threads joined.
pub fn run_rounds<'p, 'c, B: Done + Drop + Send, P: Pump + Drop + Send, R: Threads + Wait + Sync>(
    rt: &R,
    feeder: &mut Feeder<'p, ChannelTicket<'c, B>, Keeper<'c, B, P, R>>,
    crew: &mut Vec<Worker<'p, ChannelTicket<'c, B>, Deliverer<'c, B, R>>>,
)
    ensures runs { RunsRounds P.steps (λ its. its.place) (λ its. its.orders) feeder.old.source.deliverer.orders P.ends
        (feeder.old.source.deliverer.place, feeder.old.source.pump) feeder.old.pass crew.old.items
        (feeder.new.source.deliverer.place, feeder.new.source.pump) feeder.new.pass crew.new.items }
    ensures pool { feeder.new.pool.now ≡ feeder.old.pool.now }
    ensures orders { feeder.new.source.deliverer.orders ≡ feeder.old.source.deliverer.orders }
{
    for _ in rt.forever() {
        run_beside(rt, feeder, crew);
        if feeder.source.is_done() {
            return;
        }
    }
    unreachable!()
}
