//! The indexes of legs.

mod channel;

use crate::words::Words;
use channel::run;
use std::alloc::Global;
use std::io;

// How many legs are in flight, and how many steps to take.
pub fn measure(alloc: Global, words: &Words) -> io::Result<String> {
    let legs = words.number(0).unwrap_or(100);
    let steps = words.number(1).unwrap_or(1_000);
    let ended = run(alloc, legs, steps)?;
    Ok(format!(in alloc; "{ended} legs ended")?)
}
