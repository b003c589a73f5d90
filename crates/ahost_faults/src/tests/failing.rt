//! The first read of a run fails, its second, and its only put.

use super::outside::{Outside, outside_of};
use super::{FOLLOWED, Scenario, is_put, played};
use scenario::{are_told, is_called_once};
use std::alloc::Global;
use std::test::Fail;

/// A run, and what it has to leave: its exit status, what it put, and the lines of its journal and of its network's calls.
#[derive(Clone, Copy)]
struct Case {
    shows: &'static str,
    run: Scenario,
    status: u8,
    put: &'static str,
    journal: &'static str,
    calls: &'static str,
}

/// A file that can't be read ends the run before it has a channel: nothing is in the journal, and nothing was called.
const FIRST_READ: Case = Case {
    shows: "the first read fails",
    run: Scenario {
        read_fails: &[0],
        ..FOLLOWED
    },
    status: 3,
    put: "ahost: file fault\n",
    journal: "",
    calls: "",
};

const SECOND_READ: Case = Case {
    shows: "the second read fails",
    run: Scenario {
        read_fails: &[1],
        ..FOLLOWED
    },
    ..FIRST_READ
};

/// Where the only put fails, all was asked and called, and the journal is whole. Nothing else is put.
const ONLY_PUT: Case = Case {
    shows: "the only put fails",
    run: Scenario {
        put_fails: &[0],
        ..FOLLOWED
    },
    status: 4,
    put: "",
    journal: "accept 1
take 1
by 1 accept 2
start 2 on 0 over 0 at 0
arrive from 0 over 0
take 2
destroy
",
    calls: "serve 0 of 3221226037 at 53
send to 0
wait to 2000
",
};

const CASES: &[Case] = &[FIRST_READ, SECOND_READ, ONLY_PUT];

/// What the first of these runs shows that leaves something else; nothing where none does.
fn first_wrong<'a>(alloc: Global, cases: &'a [Case]) -> Result<&'a str, Fail> {
    for case in cases {
        if !leaves(alloc, case)? {
            return Ok(case.shows);
        }
    }
    Ok("")
}

/// Whether a run leaves what it has to.
fn leaves(alloc: Global, case: &Case) -> Result<bool, Fail> {
    leaves_in(alloc, case, &mut outside_of(alloc, &case.run)?)
}

/// The same where it is lent this.
fn leaves_in(alloc: Global, case: &Case, outside: &mut Outside) -> Result<bool, Fail> {
    let ended = played(alloc, &case.run, outside)?;
    let entries = ended.journal.entries();
    let is_so = ended.status == case.status
        && is_put(outside, case.put)
        && is_called_once(entries, &ended.calls);
    let calls = outside.world.log().calls();
    Ok(is_so && are_told(alloc, entries, case.journal, calls, case.calls)?)
}

#[test]
fn failing_files_and_output_leave_this(rt: HostRuntime) -> Result<(), Fail> {
    assert_eq!(rt; first_wrong(rt.alloc(), CASES)?, "");
    Ok(())
}
