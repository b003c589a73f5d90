//! What a session has to do, and what it comes to.

use chan_types::{Orders, Spec};
use completion_ticket::{Callback, Done};
use net_addr::ServerList;
use net_world::World;
use shared_channel::Finished;

/// What is asked of a channel: the requests, each with its callback, in order; the orders that callbacks go by; the servers
/// that are set behind the first turn, if there are such; how many workers call callbacks; and how many turns may be made.
#[derive(Drop)]
pub struct Task<B: Done + Drop> {
    pub requests: Vec<(Spec, Callback<B>)>,
    pub orders: Orders,
    pub later: Option<ServerList>,
    pub workers: u64,
    pub turns: u64,
}

/// How a session came to its end.
#[derive(Clone, Copy, Debug, PartialEq, Eq)]
pub enum SessionEnd {
    /// Nothing is pending or ready.
    Completed,
    /// A wait failed.
    WaitFault,
    /// All turns were made, and a request is pending.
    Stalled,
    /// Memory was wanting.
    OutOfMemory,
}

/// How it came to its end, and what is left of its channel.
#[derive(Drop)]
pub struct Session {
    pub end: SessionEnd,
    pub finished: Finished,
}

/// What it came to, unless memory for a channel was wanting, and its network.
#[derive(Drop)]
pub struct Ran<W: World + Drop> {
    pub session: Option<Session>,
    pub world: W,
}
