//! Asks a channel of many requests, by its owner, by a runner and by a whole run, and checks and puts stored runs, for
//! instructions and memory to be counted. The first word is the part, and the words behind it say what is done and how often.
//! With no word each part does a little, and the lines that are printed are always the same.
#![tactic(auto)]

mod adig;
mod failed;
mod replay;
mod requests;
mod runner;
mod table;
mod words;

use failed::Failed;
use std::alloc::Global;
use std::{env, io};

/// The parts, by the names of their crates.
const PARTS: [&str; 4] = [
    "adig_tool",
    "channel_table",
    "event_runner",
    "journal_replay",
];

/// What a part tells: nothing where there is no such part.
fn measured(alloc: Global, part: &str, words: &[String]) -> Result<String, Failed> {
    match part {
        "adig_tool" => adig::measure(alloc, words),
        "channel_table" => table::measure(alloc, words),
        "event_runner" => runner::measure(alloc, words),
        "journal_replay" => replay::measure(alloc, words),
        _ => Ok(String::new(alloc)),
    }
}

/// Prints what a part tells, or that it failed.
fn print_part<R: Print + AllocGlobal>(rt: &R, part: &str, words: &[String]) -> io::Result<()> {
    match measured(rt.alloc(), part, words) {
        Ok(line) => println!(rt; "{line}"),
        Err(Failed) => println!(rt; "failed"),
    }
}

fn main(rt: HostRuntime) -> io::Result<()> {
    let mut all = env::args(&rt)?.skip(1);
    let part = all.next();
    let mut words = Vec::new(rt.alloc());
    for word in all {
        words.push(word)?;
    }
    if let Some(part) = part {
        return print_part(&rt, part.as_str(), words.as_slice());
    }
    for part in PARTS.iter() {
        print_part(&rt, part, words.as_slice())?;
    }
    Ok(())
}
