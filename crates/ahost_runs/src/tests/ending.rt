//! Where a run is over its network isn't called any more: its calls are counted, those that no line tells among them.

use super::outcome::{is_left, outcome_of};
use super::statuses::{AT_ONCE, FOUND, SILENT};
use super::{Case, RUN, Scenario, Wanted};
use std::alloc::Global;
use std::test::Fail;

/// Whether a run leaves this, and its network was called so often.
fn calls_so_often(alloc: Global, case: &Case, count: usize) -> Result<bool, Fail> {
    let outcome = outcome_of(alloc, &case.run)?;
    Ok(outcome.count == count && is_left(&outcome, &case.wanted))
}

/// The second wait fails. It is call 12, from 0: before it stand a serve, and two times the clock, a receive, a word, a send
/// and the word for a further leg, with the first wait between. So there are 13 calls, of which the last one failed.
const A_LATER_WAIT_FAILS: Case = Case {
    shows: "a failing later wait is a fault",
    run: Scenario {
        line: SILENT,
        fails: &[12],
        ..RUN
    },
    wanted: Wanted {
        status: 6,
        put: "ahost: wait fault\n",
        journal: "accept 1
start 1 on 0 over 0 at 0
expire 1 at 2000
start 1 on 0 over 0 at 2000
destroy
take 1
",
        network: "serve 0 of 3221226037 at 53
send to 0
wait to 2000
send to 0
wait to 6000
",
        answers: "1 status 16\n",
    },
};

#[test]
fn a_failed_wait_is_the_last_call(rt: HostRuntime) -> Result<(), Fail> {
    assert!(rt; calls_so_often(rt.alloc(), &A_LATER_WAIT_FAILS, 13)?);
    Ok(())
}

/// What completes at its Accept needs no turn, also where there may be 1,000: one server is told, and that is all.
const AN_ADDRESS_NEEDS_NO_TURN: Case = Case {
    shows: "an address is found before a first turn",
    run: Scenario {
        line: AT_ONCE,
        ..RUN
    },
    wanted: FOUND,
};

#[test]
fn nothing_pending_makes_no_turn(rt: HostRuntime) -> Result<(), Fail> {
    assert!(rt; calls_so_often(rt.alloc(), &AN_ADDRESS_NEEDS_NO_TURN, 1)?);
    Ok(())
}
