//! A whole round.
ghost use Rattle.delivery_pool.specs.Parts.{EachDoes};
ghost use Rattle.delivery_pool.specs.Rounds.{SendersPart, WorkersPart};

use crate::offering::Sender;
use crate::part::beside;
use crate::spender::Spender;
use crate::working::Worker;
use std::sync::Wait;
use std::thread::Threads;

/// The sender's part beside the workers', each in a thread of its own. The threads are joined at the end.
pub fn run_round<'p, T: Drop + Send, S: Spender<T> + Drop + Send, R: Threads + Wait + Sync>(
    rt: &R,
    sender: &mut Sender<'p, T, S>,
    workers: &mut [Worker<'p, T, S>],
)
    ensures offers { SendersPart S.spends S.state sender.old sender.new }
    ensures works { EachDoes (WorkersPart S.spends S.state) workers.old workers.new }
{
    beside(rt, sender, workers);
}
