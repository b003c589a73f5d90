//! Brings a channel to its answers over a network: turns and pauses over any desk and any network.
#![tactic(auto)]

mod answers;
mod asking;
mod backlog;
mod closing;
mod expiring;
mod frames;
mod inbound;
mod kept;
mod link;
mod opening;
mod pausing;
mod receiving;
mod runner;
mod starting;
mod turning;
mod writing;

pub use answers::{Paused, Turned};
pub use runner::Runner;

#[cfg(test)]
mod tests;
