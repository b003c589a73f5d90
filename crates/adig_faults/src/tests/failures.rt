//! How often a run failed, counted.

use chan_types::{Entry, What};
use net_world::{Got, Sent, WorldCall, Wrote};

/// How many entries are faults.
pub fn faults_in(entries: &[Entry]) -> u64 {
    let mut faults = 0u64;
    for entry in entries {
        if let What::Fault { .. } = entry.what {
            faults = faults.saturating_add(1);
        }
    }
    faults
}

/// How many sends, connects, writes and receives failed.
pub fn failures_in(calls: &[WorldCall]) -> u64 {
    let mut failures = 0u64;
    for call in calls {
        if has_failed(call) {
            failures = failures.saturating_add(1);
        }
    }
    failures
}

/// Whether a send, a connect, a write or a receive failed by this call.
fn has_failed(call: &WorldCall) -> bool {
    match call {
        WorldCall::Send { sent, .. } | WorldCall::Connect { sent, .. } => *sent == Sent::Failed,
        WorldCall::Write { wrote, .. } => *wrote == Wrote::Failed,
        WorldCall::Receive {
            got: Got::Failed(..),
        } => true,
        _ => false,
    }
}
