//! The identifiers of queries: which of the 65,536 are in use, and which is the first free one from a number upwards
//! (RFC 1035, section 4.1.1).
#![tactic(auto)]

mod bitmap;
mod levels;
mod pool;

pub use pool::IdPool;
