//! What a lock is made of.

/// The state that it begins with, and how many seats it has. The lock's rule reads both.
pub struct Opened<S> {
    pub state: S,
    pub seats: u64,
}
