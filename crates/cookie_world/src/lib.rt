//! A World around a World, with DNS cookies over UDP (RFC 7873).
#![tactic(auto)]

mod counted;
mod laws;
mod passing;
mod receiving;
mod sending;
mod serving;
mod state;
mod verdict;
mod world;

pub use laws::{
    datagrams_are_given_with_a_reason, origin_tells_how_the_log_began, queries_go_out_twice_at_most,
};
pub use world::CookieWorld;
