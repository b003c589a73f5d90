//! Hosts' addresses looked up from four threads that share one channel: three of them ask, and one runs the channel over a
//! network.
#![tactic(auto)]

mod asking;
mod beside;
mod page;
mod requests;
mod running;
mod threads;

pub use page::put_answers;
pub use running::{RunEnd, run_place};
pub use threads::look_up_from_threads;
