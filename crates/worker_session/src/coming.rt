//! How far the turns of a run have come.

/// How far the turns of a run have come.
#[derive(Clone, Copy, Debug, PartialEq, Eq)]
pub enum Coming {
    /// More may be made.
    UnderWay,
    /// A wait failed.
    WaitFault,
    /// All turns were made, and a request is pending.
    Stalled,
    /// Memory was wanting.
    OutOfMemory,
}
