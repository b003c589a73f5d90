//! Why a helm has ended.

/// Why a helm has ended.
#[derive(Clone, Copy, Debug, PartialEq, Eq)]
pub enum HelmEnd {
    /// Nothing was pending or ready by the counts that it was answered last.
    Done,
    /// A wait of its network failed.
    WaitFault,
    /// It made all turns that it might make, and by the counts that it was answered last a request was pending.
    Stalled,
    /// Memory was wanting.
    NoMemory,
}
