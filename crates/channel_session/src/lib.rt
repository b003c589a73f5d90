//! A session: turns and pauses over any desk and any network, from one completed request to the next, until nothing is
//! pending.
#![tactic(auto)]

mod left;
mod progress;
mod session;

pub use progress::Progress;
pub use session::Session;
