//! How the turns of a run came to their end.

/// How the turns of a run came to their end.
#[derive(Clone, Copy, Debug, PartialEq, Eq)]
pub enum LoopEnd {
    /// Nothing is pending.
    Completed,
    /// A wait failed.
    WaitFault,
    /// All turns were made, and a request is pending.
    Stalled,
}
