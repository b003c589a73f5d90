//! What a run has to do.

use crate::reporting::Report;
use completion_ticket::Done;
use owner_session::Requests;

/// The requests of a run, with the bodies and orders of their callbacks and the later servers; and what is put in the end.
#[derive(Drop)]
pub(crate) struct Task<B: Done + Drop> {
    pub requests: Requests<B>,
    pub report: Report,
}
