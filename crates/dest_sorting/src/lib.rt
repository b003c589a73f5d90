//! The order in which the addresses of a name are tried, and the source address that serves each (RFC 6724).
#![tactic(auto)]

mod policy;
mod ranks;
mod sorting;
mod source;

pub use sorting::sort;
pub use source::source_for;
