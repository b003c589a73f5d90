//! One part of a round beside the others.
ghost use Rattle.delivery_pool.specs.Parts.{EachDoes};

use std::sync::Wait;
use std::thread::{Threads, for_each_mut, join_mut};

/// How many threads run the parts beside the first: as many as a pool may have workers.
const MOST_THREADS: usize = 16;

/// A part of a round, which one thread runs.
pub trait Part<R> {
    // what was done, between these states
    ghost does: { Self → Self → Type 0 };

    /// Runs it to its end.
    fn run(&mut self, rt: &R)
        ensures { does self.old self.new };
}

/// Runs the first part beside the others, each in a thread of its own, up to sixteen of them.
pub fn beside<M: Part<R> + Send, W: Part<R> + Send, R: Threads + Wait + Sync>(
    rt: &R,
    main: &mut M,
    workers: &mut [W],
)
    ensures main { M.does main.old main.new }
    ensures each { EachDoes W.does workers.old workers.new }
{
    // Where no thread can be made the workers run behind the first part, which sends their stops.
    join_mut(rt, &mut || run_all(rt, workers), &mut || run_one(rt, main));
}

/// Runs one part.
fn run_one<P: Part<R>, R: Wait>(rt: &R, part: &mut P)
    ensures { P.does part.old part.new }
{
    part.run(rt);
}

/// Runs all parts, each in a thread of its own.
fn run_all<W: Part<R> + Send, R: Threads + Wait + Sync>(rt: &R, workers: &mut [W])
    ensures { EachDoes W.does workers.old workers.new }
{
    for_each_mut(
        rt,
        workers,
        MOST_THREADS,
        &|_, worker: &mut W|
            ensures { W.does worker.entry.now worker.exit.now }
        { run_one(rt, worker) },
    );
}
