//! What a request costs at a channel that threads share, beside a channel with one owner.
//! `alone N` asks, answers and delivers N requests at a channel with one owner, and `one N` at a shared one, in one
//! thread. `times T N` does the first, and then asks and delivers N requests in T threads beside one that replies, and
//! tells how long both took; `many T N` is the same with ten calls under one hold of the lock. With no words it does a
//! few in two threads, both ways, and tells how many were accepted and called.
//!
//! `lock seat N`, `lock held N` and `lock mutex N` take N turns of the lock in this thread alone, each one by itself, ten in
//! a hold, or under std's Mutex. `lock times T N` takes N turns in each of T threads and tells how long both took. With no
//! words it takes a few turns in two threads too, and tells what was counted.
#![tactic(auto)]

mod alone;
mod asking;
mod backoff;
mod held;
mod lock;
mod place;
mod threads;

use crate::alone::run_alone;
use crate::threads::{Ended, run_one, run_shared};
use chan_types::NoMemory;
use std::alloc::Global;
use std::sync::Wait;
use std::thread::Threads;
use std::time::{Clock, Instant};
use std::{env, io};

/// The number that a word spells, or what stands in for it.
fn number(word: Option<String>, other: u64) -> u64 {
    match word {
        Some(word) => word.as_str().parse().unwrap_or(other),
        None => other,
    }
}

/// The nanoseconds that so many requests take at a channel with one owner, and in so many threads, and how many were
/// called there.
fn times<R: Threads + Wait + Sync + Clock>(
    rt: &R,
    alloc: Global,
    threads: u64,
    count: u64,
    held: bool,
) -> io::Result<(u128, u128, u64)> {
    let start = Instant::now(rt)?;
    let _called = run_alone(alloc, count).is_ok();
    let alone = start.elapsed(rt)?.as_nanos();
    let start = Instant::now(rt)?;
    let (_, called) = counts_of(run_shared(rt, alloc, threads, count, held));
    Ok((alone, start.elapsed(rt)?.as_nanos(), called))
}

/// How many were accepted and called; none of them for want of memory.
fn counts_of(ended: Result<Ended, NoMemory>) -> (u64, u64) {
    match ended {
        Ok(Ended { accepted, called }) => (accepted, called),
        Err(_) => (0, 0),
    }
}

fn main(rt: HostRuntime) -> io::Result<()> {
    let alloc = rt.alloc();
    let mut words = env::args(&rt)?.skip(1);
    let Some(kind) = words.next() else {
        let (accepted, called) = counts_of(run_shared(&rt, alloc, 2, 1000, false));
        println!(rt; "{accepted} {called}")?;
        let (accepted, called) = counts_of(run_shared(&rt, alloc, 2, 1000, true));
        println!(rt; "{accepted} {called}")?;
        return lock::tell(&rt, "", None, None);
    };
    match kind.as_str() {
        "alone" => println!(rt;
            "{}",
            run_alone(alloc, number(words.next(), 1000)).unwrap_or(0)
        ),
        "one" => {
            let (_, called) = counts_of(run_one(&rt, alloc, number(words.next(), 1000)));
            println!(rt; "{called}")
        }
        "lock" => match words.next() {
            Some(kind) => lock::tell(&rt, kind.as_str(), words.next(), words.next()),
            None => lock::tell(&rt, "", None, None),
        },
        kind => {
            let held = kind == "many";
            let threads = number(words.next(), 2);
            let count = number(words.next(), 1000);
            let (alone, shared, called) = times(&rt, alloc, threads, count, held)?;
            println!(rt; "{threads} {called} {alone} {shared}")
        }
    }
}
