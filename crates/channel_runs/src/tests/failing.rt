//! Each call of the network fails in turn.

use super::links::TRUNCATED_FIRST;
use super::{ASK, PLAIN, Scene, begun, desk_of, play};
use chan_types::{Entry, Quiet, What};
use channel_table::Alone;
use net_world::{Got, Sent, WorldCall, Wrote};
use std::alloc::Global;
use std::test::Fail;

/// How many entries are faults.
fn faults_in(entries: &[Entry]) -> u64 {
    let mut faults = 0u64;
    for entry in entries {
        if let What::Fault { .. } = entry.what {
            faults = faults.saturating_add(1);
        }
    }
    faults
}

/// Whether a send, a connect, a write or a receive failed by this call.
fn has_failed(call: &WorldCall) -> bool {
    match call {
        WorldCall::Send { sent, .. } | WorldCall::Connect { sent, .. } => *sent == Sent::Failed,
        WorldCall::Write { wrote, .. } => *wrote == Wrote::Failed,
        WorldCall::Receive {
            got: Got::Failed(..),
        } => true,
        _ => false,
    }
}

/// How many of the calls failed.
fn failures_in(calls: &[WorldCall]) -> u64 {
    let mut failures = 0u64;
    for call in calls {
        if has_failed(call) {
            failures = failures.saturating_add(1);
        }
    }
    failures
}

/// How many faults the journal of a channel has.
fn faults_of(desk: Alone<Quiet>) -> u64 {
    let journal = desk.close();
    faults_in(journal.entries.as_slice())
}

/// How many faults the journal has, and how many calls failed, in a run whose call of this number fails: its first
/// reply is truncated, and the whole one comes over TCP.
fn failed_once(alloc: Global, number: u64) -> Result<(u64, u64), Fail> {
    let scene = Scene {
        resolv: PLAIN,
        comings: &TRUNCATED_FIRST,
        fails: &[number],
        turns: 6,
    };
    let mut run = begun(alloc, &scene)?;
    let is_played = play(alloc, &mut run, &[ASK], scene.turns);
    let failures = failures_in(run.world.log().calls());
    let faults = faults_of(desk_of(run));
    is_played?;
    Ok((faults, failures))
}

/// Each failure of a send, a connect, a write or a receive leaves one fault, and no other call does. Of the first forty
/// calls at least ten are such.
#[test]
fn each_failure_is_one_fault(rt: HostRuntime) -> Result<(), Fail> {
    let mut all = 0u64;
    for number in 0..40 {
        let (faults, failures) = failed_once(rt.alloc(), number)?;
        assert!(rt; faults == failures);
        all = all.saturating_add(failures);
    }
    assert!(rt; 10 <= all);
    Ok(())
}
