//! How a run ended.

ghost use Rattle.std.specs.Prelude.{◌≡◌, []};

use chan_types::{Calls, Journal};
use std::alloc::Global;

/// What a run comes to: its exit status, the journal of its channel, and the answers that its callbacks were called with.
#[derive(Drop)]
pub struct Ended {
    pub status: u8,
    pub journal: Journal,
    pub calls: Calls,
}

impl Ended {
    /// A run that made no channel. It takes no memory.
    pub fn early(alloc: Global, status: u8) -> Ended
        ensures { result ≡ record { status = status; journal = []; calls = [] } }
    {
        Ended {
            status,
            journal: Journal::from_vec(Vec::new(alloc)),
            calls: Calls::new(),
        }
    }
}
