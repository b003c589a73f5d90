//! The system's monotonic clock.

use std::time::Clock;

/// Milliseconds since the clock's start; where it can't be read, the moment before.
pub fn millis_after<R: Clock>(rt: &R, before: u64) -> u64 {
    match rt.monotonic() {
        Ok(time) => u64::try_from(time.as_millis()).unwrap_or(u64::MAX),
        Err(_) => before,
    }
}
