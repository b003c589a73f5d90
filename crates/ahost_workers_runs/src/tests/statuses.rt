//! Exit statuses, by their number, with the text that is put.

use super::bodies::blank_bodies;
use super::playing::{Played, RUN, Scenario, ended, network_of};
use scenario::words_of;
use std::alloc::Global;
use std::sync::Wait;
use std::test::*;
use std::thread::Threads;

/// A run with three bodies, and what it has to leave.
#[derive(Clone, Copy)]
struct Row {
    shows: &'static str,
    run: Scenario<'static>,
    status: u8,
    put: &'static str,
}

/// Two workers, and one request that is silent, or one that completes at once.
const SILENT: &str = "--workers 2 --server 192.0.2.53 --family 4 --no-edns x.test.";

const AT_ONCE: &str = "--workers 2 --server 192.0.2.53 192.0.2.1";

/// Words that ask nothing that is served with workers: no words, no workers, too many, no name, and more names than bodies.
const REFUSED: &[&str] = &[
    "",
    "192.0.2.1",
    "--workers 0 192.0.2.1",
    "--workers 17 192.0.2.1",
    "--workers 1",
    "--workers 1 --load 4",
    "--workers 1 a.test. b.test. c.test. d.test.",
];

const ROWS: &[Row] = &[
    Row {
        shows: "a failing first read is a fault",
        run: Scenario {
            line: AT_ONCE,
            read_fails: &[0],
            ..RUN
        },
        status: 3,
        put: "ahost: file fault\n",
    },
    Row {
        shows: "a failing put is a fault",
        run: Scenario {
            line: AT_ONCE,
            put_fails: &[0],
            ..RUN
        },
        status: 4,
        put: "",
    },
    // The first wait is call 6, from 0: before it stand a serve, the clock, a receive, a word, a send, and the word for a
    // further leg.
    Row {
        shows: "a failing wait is a fault",
        run: Scenario {
            line: SILENT,
            fails: &[6],
            ..RUN
        },
        status: 6,
        put: "ahost: wait fault\n",
    },
    Row {
        shows: "no turns is stalled",
        run: Scenario {
            line: SILENT,
            turns: 0,
            ..RUN
        },
        status: 7,
        put: "ahost: stalled\n",
    },
    Row {
        shows: "no turns are enough for an address",
        run: Scenario {
            line: AT_ONCE,
            turns: 0,
            ..RUN
        },
        status: 0,
        put: "192.0.2.1 0 SUCCESS\n  192.0.2.1\n",
    },
    Row {
        shows: "silence is a failure",
        run: Scenario {
            line: SILENT,
            ..RUN
        },
        status: 1,
        put: "x.test. 12 ETIMEOUT\n",
    },
];

/// What a run leaves.
fn left<R: Threads + Wait + Sync>(
    rt: &R,
    alloc: Global,
    run: &Scenario<'_>,
) -> Result<Played, Fail> {
    let words = words_of(alloc, run.line)?;
    let world = network_of(alloc, run)?;
    let bodies = blank_bodies(alloc, 3)?;
    ended(rt, alloc, words.as_slice(), run, bodies, world)
}

/// The first row that doesn't leave what it has to, by what it shows.
fn first_wrong<R: Threads + Wait + Sync>(rt: &R, alloc: Global) -> Result<&'static str, Fail> {
    for row in ROWS {
        if !left(rt, alloc, &row.run)?.is(row.status, row.put) {
            return Ok(row.shows);
        }
    }
    Ok("")
}

/// The first of these lines that isn't refused.
fn first_served<R: Threads + Wait + Sync>(rt: &R, alloc: Global) -> Result<&'static str, Fail> {
    for line in REFUSED {
        let run = Scenario { line, ..RUN };
        if !left(rt, alloc, &run)?.is(2, "ahost: usage\n") {
            return Ok(line);
        }
    }
    Ok("none")
}

#[test]
fn words_that_ask_nothing_are_refused(rt: HostRuntime) -> Result<(), Fail> {
    assert_eq!(rt; first_served(&rt, rt.alloc())?, "none");
    Ok(())
}

#[test]
fn statuses_are_right(rt: HostRuntime) -> Result<(), Fail> {
    assert_eq!(rt; first_wrong(&rt, rt.alloc())?, "");
    Ok(())
}
