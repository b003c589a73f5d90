//! Delivery: a completed request's callback is told its answer, and what it commands is performed on that request's command.
#![tactic(auto)]

mod command_desk;
mod owner;
mod performing;
mod spending;

pub use command_desk::CommandDesk;
pub use performing::perform_all;
pub use spending::spend;
