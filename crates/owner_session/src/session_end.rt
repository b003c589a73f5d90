//! What a session comes to.

use chan_types::{Calls, Journal};
use completion_ticket::Done;
use resolv_options::Options;
use tool_line::Exit;

/// The options of a session's channel, how the session came to its end, the channel's journal, the answers that callbacks were
/// called with, and the bodies of the session's own requests.
#[derive(Drop)]
pub struct SessionEnd<B: Done + Drop> {
    pub options: Options,
    pub end: Exit,
    pub journal: Journal,
    pub calls: Calls,
    pub bodies: Vec<B>,
}
