//! The order of lookups.

/// Where the addresses of a host are looked for, in order.
#[derive(Clone, Copy, Debug, PartialEq, Eq)]
pub enum Lookups {
    /// In the hosts file, then by queries.
    FilesDns,
    /// By queries alone.
    Dns,
    /// In the hosts file alone.
    Files,
}
