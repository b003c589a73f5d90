//! What a turn did, and how a pause ended.

/// What one turn did.
#[derive(Clone, Copy, Debug, PartialEq, Eq)]
pub struct Turned {
    /// The turn's reading of the clock, in milliseconds.
    pub reading: u64,
    /// How many receives gave something.
    pub received: u64,
    /// How many attempts expired.
    pub expired: u64,
    /// How many attempts were started.
    pub started: u64,
}

/// How a pause ended.
#[derive(Clone, Copy, Debug, PartialEq, Eq)]
pub enum Paused {
    /// There was something to do, or nothing to wait for.
    Skipped,
    /// The wait is over.
    Woken,
    /// The wait failed.
    WaitFault,
}
