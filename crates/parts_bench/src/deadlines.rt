//! The queue of deadlines: a put, a first_due and a drop_key, in tenths of a nanosecond.

mod calls;
mod channel;
mod rounds;

use crate::words::Words;
use rounds::{run, tenths};
use std::alloc::Global;
use std::io;
use std::time::Clock;

// With a number of keys it tells their times, with a number of steps besides it takes these in the pattern of a channel,
// and with no word it tells a line that is always the same.
pub fn measure<R: Clock>(rt: &R, alloc: Global, words: &Words) -> io::Result<String> {
    match (words.number(0), words.number(1)) {
        (Some(keys), Some(steps)) => {
            let left = channel::run(alloc, u64::from(keys), u64::from(steps))?;
            Ok(format!(in alloc; "{left}")?)
        }
        (Some(keys), None) => timed(rt, alloc, keys),
        (None, _) => {
            let spent = run(rt, alloc, 64, 8, 100)?;
            Ok(format!(in alloc; "{} deadlines put in and taken out", spent.dropped)?)
        }
    }
}

/// The tenths of a nanosecond that each call took among so many keys.
fn timed<R: Clock>(rt: &R, alloc: Global, keys: u32) -> io::Result<String> {
    let batch = (keys / 8).max(1);
    let spent = run(
        rt,
        alloc,
        u64::from(keys),
        u64::from(batch),
        u64::from(4_000_000 / batch),
    )?;
    let put = tenths(spent.put, spent.dropped);
    let first_due = tenths(spent.first_due, spent.dropped);
    let drop_key = tenths(spent.drop_key, spent.dropped);
    Ok(format!(in alloc; "{keys} {put} {first_due} {drop_key}")?)
}
