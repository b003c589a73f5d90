//! The work of a callback.

use std::io;
use std::sync::atomic::{AtomicU64, Ordering};
use std::time::CpuClock;

/// How many steps each callback makes, and where it counts that it has made them.
#[derive(Clone, Copy)]
pub struct Work<'n> {
    pub steps: u64,
    pub worked: &'n AtomicU64,
}

impl<'n> Work<'n> {
    /// Makes the steps from a number that isn't 0, and counts itself. Where they ended it counts, so that no compiler leaves
    /// them out.
    pub fn make(&self, number: u64) {
        let end = walked(number, self.steps);
        self.worked
            .fetch_add(if end == 0 { 2 } else { 1 }, Ordering::SeqCst);
    }
}

/// Where so many steps lead from a number: a generator of random numbers (Marsaglia's xorshift of 64 bits), each of whose
/// steps needs the one before. From any number but 0 it never comes to 0.
fn walked(number: u64, steps: u64) -> u64 {
    let mut state = number.max(1);
    for _ in 0..steps {
        state ^= state << 13;
        state ^= state >> 7;
        state ^= state << 17;
    }
    state
}

/// How many steps are tried to tell how long one takes.
const TRIED: u64 = 1_000_000;

/// How often they are tried: the shortest of these times counts, which nothing else has held up.
const TRIES: u64 = 9;

/// How many steps take so many microseconds of a processor.
pub fn steps_for<R: CpuClock>(rt: &R, micros: u64) -> io::Result<u64> {
    if micros == 0 {
        return Ok(0);
    }
    let mut shortest = u128::MAX;
    for number in 1..=TRIES {
        let start = rt.thread_cpu_time()?;
        let end = walked(number, TRIED);
        let spent = rt.thread_cpu_time()?.saturating_sub(start).as_nanos();
        if end != 0 {
            shortest = shortest.min(spent);
        }
    }
    let steps = u128::from(TRIED) * u128::from(micros) * 1000 / shortest.max(1);
    Ok(steps.min(u128::from(u64::MAX)) as u64)
}
