//! What a run with workers has to do.

use ahost_tool::Report;
use chan_types::Orders;
use completion_ticket::Done;
use net_addr::ServerList;
use tool_line::SpecList;

/// The requests of a run, each with the body of its callback; the orders of the callbacks; the servers that are set behind
/// the first turn, if there are such; what is put in the end; how many workers call callbacks; and how many turns may be
/// made.
#[derive(Drop)]
pub(crate) struct Work<B: Done + Drop> {
    pub specs: SpecList,
    pub bodies: Vec<B>,
    pub orders: Orders,
    pub later: Option<ServerList>,
    pub report: Report,
    pub workers: u64,
    pub turns: u64,
}
