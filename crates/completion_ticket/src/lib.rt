//! Callbacks of a channel: values that a call consumes, what they command, and what is left of them.
#![tactic(auto)]

mod body;
mod callback;
mod called;
mod done;
mod hand;
mod scripted;

pub use callback::Callback;
pub use called::Called;
pub use done::Done;
pub use hand::Hand;
pub use scripted::Scripted;
