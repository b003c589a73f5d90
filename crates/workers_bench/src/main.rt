//! What a name costs `ahost` with workers and without, where each callback works for a while. `load NAMES MICROSECONDS` asks
//! for the names of a load without workers, and then with one, two and four: each callback works for so long. For each of
//! these runs it prints how long a name took, by the clock and by the processors. With no words it asks for a few names each
//! way, and prints the summaries.
#![tactic(auto)]

mod bodies;
mod numbers;
mod playing;
mod working;

use crate::numbers::number;
use crate::playing::{Run, play};
use crate::working::{Work, steps_for};
use item_list::NoMemory;
use std::alloc::Global;
use std::io::Print;
use std::sync::Wait;
use std::sync::atomic::{AtomicU64, Ordering};
use std::thread::Threads;
use std::time::{Clock, CpuClock, Instant};
use std::{env, io};

/// How many workers the runs have.
const WORKERS: [u64; 4] = [0, 1, 2, 4];

/// Makes a run, and prints what a name took of it, in nanoseconds, and how many callbacks worked; or its summary alone.
fn tell_run<R: Threads + Wait + Sync + Clock + CpuClock + Print>(
    rt: &R,
    alloc: Global,
    run: &Run,
    timed: bool,
) -> io::Result<()> {
    let worked = AtomicU64::new(0);
    let work = Work {
        steps: run.steps,
        worked: &worked,
    };
    let start = Instant::now(rt)?;
    let spent = rt.process_cpu_time()?;
    let summary = play(rt, alloc, run, work).map_err(no_memory)?;
    let spent = rt.process_cpu_time()?.saturating_sub(spent);
    let elapsed = start.elapsed(rt)?;
    if !timed {
        return print!(rt; "workers {}\n{}", run.workers, summary.as_str());
    }
    let names = u128::from(run.names.max(1));
    println!(rt;
        "workers {}: {} ns a name by the clock, {} by the processors, {} callbacks worked",
        run.workers,
        elapsed.as_nanos() / names,
        spent.as_nanos() / names,
        worked.load(Ordering::SeqCst)
    )
}

/// The fault of the program where memory is wanting.
fn no_memory(_: NoMemory) -> io::Error {
    io::ErrorKind::OutOfMemory.into()
}

/// Makes a run with each number of workers.
fn tell_all<R: Threads + Wait + Sync + Clock + CpuClock + Print>(
    rt: &R,
    alloc: Global,
    names: u64,
    micros: u64,
    timed: bool,
) -> io::Result<()> {
    let steps = steps_for(rt, micros)?;
    for workers in WORKERS {
        let run = Run {
            workers,
            names,
            steps,
        };
        tell_run(rt, alloc, &run, timed)?;
    }
    Ok(())
}

fn main(rt: HostRuntime) -> io::Result<()> {
    let alloc = rt.alloc();
    let mut words = env::args(&rt)?.skip(1);
    if words.next().is_none() {
        return tell_all(&rt, alloc, 12, 0, false);
    }
    let names = number(words.next(), 4096).clamp(1, 4096);
    let micros = number(words.next(), 20).min(1_000_000);
    tell_all(&rt, alloc, names, micros, true)
}
