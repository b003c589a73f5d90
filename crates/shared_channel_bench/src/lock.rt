//! What a turn of seat_lock costs beside std's Mutex, on one counter.

mod counter;
mod race;

use crate::number;
use race::{Race, alone_held, alone_on_mutex, alone_on_seat, run_both};
use std::io;
use std::sync::Wait;
use std::thread::Threads;
use std::time::Clock;

/// Takes turns as these words say, and tells what was counted or how long it took.
pub fn tell<R: Threads + Wait + Sync + Clock + AllocGlobal + Print>(
    rt: &R,
    kind: &str,
    first: Option<String>,
    second: Option<String>,
) -> io::Result<()> {
    match kind {
        "seat" => println!(rt; "{}", alone_on_seat(rt, number(first, 1000))),
        "held" => println!(rt; "{}", alone_held(rt, number(first, 1000))),
        "mutex" => {
            alone_on_mutex(rt, number(first, 1000));
            Ok(())
        }
        "times" => {
            let threads = number(first, 2).clamp(1, 64);
            let turns = number(second, 1000);
            match run_both(rt, threads, turns)? {
                Some(Race { seat, mutex, .. }) => println!(rt; "{threads} {turns} {seat} {mutex}"),
                None => println!(rt; "no memory"),
            }
        }
        _ => match run_both(rt, 2, 1000)? {
            Some(
                Race {
                    by_seat,
                    by_mutex,
                    ..
                },
            ) => println!(rt; "{by_seat} {by_mutex}"),
            None => println!(rt; "no memory"),
        },
    }
}
