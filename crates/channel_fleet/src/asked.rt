//! Where a request was accepted.

/// A request's channel, and its number there.
#[derive(Clone, Copy, Debug, PartialEq, Eq)]
pub struct Asked {
    pub channel: u64,
    pub number: u64,
}
