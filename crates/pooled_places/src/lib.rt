//! Workers that tell a channel's callbacks their answers, each through a place of its own.
#![tactic(auto)]

mod deliverer;
mod pool;
mod rounds;
mod ticket;

pub use deliverer::Deliverer;
pub use pool::{ChannelPool, PoolPass};
pub use rounds::run_round;
pub use ticket::{ChannelTicket, spend, take};
