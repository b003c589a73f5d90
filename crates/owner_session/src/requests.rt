//! What a session has to do.

use chan_types::{Orders, Spec};
use completion_ticket::Done;
use net_addr::ServerList;

/// The requests of a session, each with the body of its callback; the orders that callbacks go by; and the servers that are
/// set behind the first turn, if there are such.
#[derive(Drop)]
pub struct Requests<B: Done + Drop> {
    pub specs: Vec<Spec>,
    pub bodies: Vec<B>,
    pub orders: Orders,
    pub later: Option<ServerList>,
}
