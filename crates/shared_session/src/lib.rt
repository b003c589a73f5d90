//! A session of a channel that workers share: from its making over turns of a network to its end.
#![tactic(auto)]

mod asking;
mod looking;
mod passes;
mod serving;
mod session;
mod task;
mod turns;

pub use session::run_shared;
pub use task::{Ran, Session, SessionEnd, Task};
