//! The system's monotonic clock.

use std::time::Clock;

/// Milliseconds since the clock's start, if it can be read.
pub(crate) fn clock_millis<R: Clock>(rt: &R) -> Option<u64> {
    let time = rt.monotonic().ok()?;
    Some(u64::try_from(time.as_millis()).unwrap_or(u64::MAX))
}
