//! The queue of deadlines: a finite map from keys to due moments that also knows which comes first.
#![tactic(auto)]

mod by_number;
mod key;
mod queue;
mod rows;

pub use key::Key;
pub use queue::Queue;
