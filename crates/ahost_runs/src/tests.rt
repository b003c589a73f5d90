//! A run as plain data, and what it leaves: its exit status, what it put, and its journal, its network's calls and the
//! calls of its callbacks as lines of text.

mod bodies;
mod books;
mod boxes;
mod ending;
mod families;
mod fates;
mod loads;
mod names;
mod outcome;
mod outside;
mod reading;
mod reentry;
mod servers;
mod statuses;
mod telling;

use bodies::Bodies;
use outcome::{is_left, outcome_of};
use std::alloc::Global;
use std::test::Fail;

/// A run: its words, parted by blanks; its files, where they are; the datagrams that come of its first server at moment 1,
/// one after the other; which calls of the network fail, which reads and which puts, by their numbers from 0; how many turns
/// it may make; and the bodies of its callbacks.
#[derive(Clone, Copy)]
struct Scenario<'a> {
    line: &'a str,
    resolv: Option<&'a [u8]>,
    hosts: Option<&'a [u8]>,
    replies: &'a [&'a [u8]],
    fails: &'a [u64],
    read_fails: &'a [u64],
    put_fails: &'a [u64],
    turns: u64,
    bodies: Bodies<'a>,
}

/// A run without words, on which nothing comes. There are no files, nothing fails, and it may make 1,000 turns and has eight
/// bodies of the program's.
const RUN: Scenario<'static> = Scenario {
    line: "",
    resolv: None,
    hosts: None,
    replies: &[],
    fails: &[],
    read_fails: &[],
    put_fails: &[],
    turns: 1000,
    bodies: Bodies::Reports(8),
};

/// What a run has to leave: its exit status and what it put; and the lines of its journal, of its network's calls, and of the
/// calls of its callbacks.
#[derive(Clone, Copy)]
struct Wanted<'a> {
    status: u8,
    put: &'a str,
    journal: &'a str,
    network: &'a str,
    answers: &'a str,
}

/// A run, what it shows, and what it has to leave.
#[derive(Clone, Copy)]
struct Case {
    shows: &'static str,
    run: Scenario<'static>,
    wanted: Wanted<'static>,
}

/// Whether a run leaves this.
fn leaves(alloc: Global, scenario: &Scenario<'_>, wanted: &Wanted<'_>) -> Result<bool, Fail> {
    Ok(is_left(&outcome_of(alloc, scenario)?, wanted))
}

/// What the first of these runs shows that doesn't leave what it has to; nothing where each does.
fn first_wrong<'a>(alloc: Global, cases: &'a [Case]) -> Result<&'a str, Fail> {
    for case in cases {
        if !leaves(alloc, &case.run, &case.wanted)? {
            return Ok(case.shows);
        }
    }
    Ok("")
}
