//! The real network of the test nameserver: its `Listener` over UDP and TCP sockets of 127.0.0.1.
#![tactic(auto)]

mod bound;
mod clock;
mod link;
mod real_listener;
mod room;
mod sockets;

pub use bound::Bound;
pub use real_listener::RealListener;
