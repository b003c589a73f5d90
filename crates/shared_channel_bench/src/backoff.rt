//! How a thread waits that finds nothing to do. One that looked again at once would hold up those that have work: each look
//! is a turn under the channel's lock.

use std::thread::sleep;
use std::time::{Clock, Duration};

/// The first wait, in microseconds: about as long as ten requests take.
const FIRST: u64 = 50;

/// The longest wait, in microseconds.
const LONGEST: u64 = 400;

/// The next wait of a thread, in microseconds: twice the one before it, until something is found.
#[derive(Clone, Copy)]
pub struct Backoff {
    wait: u64,
}

impl Backoff {
    /// Nothing was looked for yet.
    pub fn new() -> Backoff {
        Backoff { wait: FIRST }
    }

    /// Waits, since nothing was found.
    pub fn snooze<R: Clock>(&mut self, rt: &R) {
        sleep(rt, Duration::from_micros(self.wait));
        self.wait = self.wait.saturating_mul(2).min(LONGEST);
    }

    /// Waits, where nothing was found.
    pub fn look<R: Clock>(&mut self, rt: &R, found: u64) {
        match found {
            0 => self.snooze(rt),
            _ => self.reset(),
        }
    }

    /// Something was found.
    pub fn reset(&mut self) {
        self.wait = FIRST;
    }
}
