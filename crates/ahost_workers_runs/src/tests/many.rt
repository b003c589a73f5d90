//! Many names, over a network in memory that loses.

use super::bodies::blank_bodies;
use super::playing::{Played, RUN, ended};
use std::alloc::Global;
use std::sync::Wait;
use std::test::*;
use std::thread::Threads;
use test_nameserver::{PeerWorld, Zone};

/// How many names are asked for, of which the zone has 3,072: of those below 4,096 each but every fourth.
const NAMES: u64 = 10_000;

/// How many runs are made: the network of each loses by another seed, and draws other identifiers.
const RUNS: u16 = 10;

/// The words of a run with four workers: its options, and the names.
fn line_of(alloc: Global) -> Result<Vec<String>, Fail> {
    let mut words = Vec::new(alloc);
    for word in ["--workers", "4", "--family", "4", "--no-search"] {
        words.push(String::from_str(alloc, word)?)?;
    }
    for number in 0..NAMES {
        words.push(format!(in alloc; "h{number}.load.test.")?)?;
    }
    Ok(words)
}

/// What the run leaves.
fn asked_many<R: Threads + Wait + Sync>(rt: &R, alloc: Global, seed: u16) -> Result<Played, Fail> {
    let line = line_of(alloc)?;
    let mut words = Vec::new(alloc);
    for word in line.as_slice() {
        words.push(word.as_str())?;
    }
    let world = PeerWorld::make(alloc, Zone::load(alloc, 4096)?, seed)?;
    let bodies = blank_bodies(alloc, NAMES)?;
    ended(rt, alloc, words.as_slice(), &RUN, bodies, world)
}

/// How many lines of a page end so.
fn count_ending(page: &Played, end: &str) -> usize {
    let lines = page.put.split(|byte| *byte == b'\n');
    lines.filter(|line| line.ends_with(end.as_bytes())).count()
}

/// Whether the page of a run with this seed has a block for each name, whatever was lost on the way.
fn is_whole<R: Threads + Wait + Sync>(rt: &R, alloc: Global, seed: u16) -> Result<bool, Fail> {
    let page = asked_many(rt, alloc, seed)?;
    Ok(
        page.status == 1
            && count_ending(&page, " 0 SUCCESS") == 3_072
            && count_ending(&page, " 4 ENOTFOUND") == 6_928,
    )
}

/// How many of the runs, with the seeds from 0 on, are whole up to the first that isn't.
fn count_whole<R: Threads + Wait + Sync>(rt: &R, alloc: Global) -> Result<u16, Fail> {
    for seed in 0..RUNS {
        if !is_whole(rt, alloc, seed)? {
            return Ok(seed);
        }
    }
    Ok(RUNS)
}

#[test]
fn many_names_are_asked(rt: HostRuntime) -> Result<(), Fail> {
    assert_eq!(rt; count_whole(&rt, rt.alloc())?, 10);
    Ok(())
}
