//! Whether every request was called once.

use chan_types::{Calls, Entry, What};

/// Whether each request that was accepted was called once, and nothing else was called.
pub fn is_called_once(entries: &[Entry], calls: &Calls) -> bool {
    let mut accepted = 0u64;
    for entry in entries {
        if let What::Accept { number, .. } = entry.what {
            if calls_of(calls, number) != 1 {
                return false;
            }
            accepted = accepted.saturating_add(1);
        }
    }
    accepted == count_of(calls)
}

/// How often this request was called.
fn calls_of(calls: &Calls, number: u64) -> u64 {
    let mut count = 0u64;
    for answer in calls.iter() {
        if answer.number == number {
            count = count.saturating_add(1);
        }
    }
    count
}

/// How many calls there were.
fn count_of(calls: &Calls) -> u64 {
    let mut count = 0u64;
    for _ in calls.iter() {
        count = count.saturating_add(1);
    }
    count
}
