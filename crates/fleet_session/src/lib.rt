//! A fleet of channels from its making to its end, with one caller: its front asks, while helms bring the channels to their
//! answers over networks of their own.
#![tactic(auto)]

mod serving;
mod session;

pub use session::{Session, run_fleet};
