//! How a run of `adig` or `ahost` comes to its end.
#![tactic(auto)]

mod ended;
mod ending;
mod loop_end;

pub use ended::Ended;
pub use ending::end_of;
pub use loop_end::LoopEnd;
