//! Whole runs over a network in memory: what happened, what was called, and what was put, as lines of text.

mod books;
mod cookies;
mod ending;
mod links;
mod outcome;
mod outgoing;
mod outside;
mod pages;
mod refusals;
mod replies;
mod searching;
mod servers;
mod setting;
mod statuses;

use outcome::{is_left, outcome_of};
use scenario::Coming;
use std::alloc::Global;
use std::test::Fail;

/// The words of a run for the addresses of example.com.
const PLAIN: &str = "--server 192.0.2.53 --no-edns example.com";

/// A reply to it with the address 192.0.2.1 (RFC 1035, section 4.1): to the query with identifier 0x1234, which is the word
/// that the network gives each time, if none other is given.
const REPLY: &[u8] =
    b"\x12\x34\x81\x80\0\x01\0\x01\0\0\0\0\x07example\x03com\0\0\x01\0\x01\xc0\x0c\0\x01\0\x01\0\0\x01\x2c\0\x04\xc0\0\x02\x01";

/// A run: its words, parted by blanks; its resolv.conf, if there is one; the network's first random words; what comes on it,
/// and which of its calls fail; which reads and puts fail, by their numbers from 0; and how many turns it may make.
#[derive(Clone, Copy)]
struct Scenario<'a> {
    line: &'a str,
    resolv: Option<&'a [u8]>,
    words: &'a [u16],
    comings: &'a [Coming<'a>],
    fails: &'a [u64],
    read_fails: &'a [u64],
    put_fails: &'a [u64],
    turns: u64,
}

/// The plain run, on which nothing comes. There is no file, nothing fails, and it may make 1,000 turns.
const RUN: Scenario<'static> = Scenario {
    line: PLAIN,
    resolv: None,
    words: &[0x1234],
    comings: &[],
    fails: &[],
    read_fails: &[],
    put_fails: &[],
    turns: 1000,
};

/// What is asked of the bytes that a run sends and writes.
#[derive(Clone, Copy)]
enum Sent<'a> {
    /// Nothing.
    Any,
    /// That these are all of them.
    All(&'a [u8]),
    /// That there are so many, of which these are the last.
    Last(usize, &'a [u8]),
}

impl Sent<'_> {
    /// Whether these bytes are as they have to be.
    fn is_met(self, sent: &[u8]) -> bool {
        match self {
            Sent::Any => true,
            Sent::All(bytes) => sent == bytes,
            Sent::Last(count, bytes) => sent.len() == count && sent.ends_with(bytes),
        }
    }
}

/// What a run has to leave: its exit status and what it put; the lines of its journal and of its network's calls; how many
/// callbacks were called; and what it sent.
#[derive(Clone, Copy)]
struct Wanted<'a> {
    status: u8,
    put: &'a str,
    journal: &'a str,
    calls: &'a str,
    called: u64,
    sent: Sent<'a>,
}

/// A run, what it shows, and what it has to leave.
#[derive(Clone, Copy)]
struct Case {
    shows: &'static str,
    run: Scenario<'static>,
    wanted: Wanted<'static>,
}

/// Whether a run leaves this.
fn leaves(alloc: Global, scenario: &Scenario<'_>, wanted: &Wanted<'_>) -> Result<bool, Fail> {
    Ok(is_left(&outcome_of(alloc, scenario)?, wanted))
}

/// What the first of these runs shows that doesn't leave what it has to; nothing where each does.
fn first_wrong<'a>(alloc: Global, cases: &'a [Case]) -> Result<&'a str, Fail> {
    for case in cases {
        if !leaves(alloc, &case.run, &case.wanted)? {
            return Ok(case.shows);
        }
    }
    Ok("")
}

/// A datagram of the first server.
fn comes(from: u64, bytes: &[u8]) -> Coming<'_> {
    Coming::datagram(from, 0, bytes)
}
