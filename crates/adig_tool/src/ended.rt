//! How a run ended.

ghost use Rattle.std.specs.Prelude.{◌≡◌, []};
ghost use Rattle.adig_tool.specs.Cookies.{own_end};

use chan_types::{Calls, Journal};
use item_list::ItemList;
use net_world::WorldCall;
use std::alloc::Global;
use tool_line::Exit;

/// What a run comes to: its exit status, the journal of its channel, and the answers that its callbacks were called with.
#[derive(Drop)]
pub struct Ended {
    pub status: u8,
    pub journal: Journal,
    pub calls: Calls,
    /// With `--cookie` the calls of the network with cookies (RFC 7873), with their answers, the oldest first: what the journal
    /// notes is what these tell. Empty without it.
    pub outer: ItemList<WorldCall>,
}

impl Ended {
    /// The same end, of a run with these calls of a network with cookies.
    pub(crate) fn with_outer(end: run_end::Ended, outer: ItemList<WorldCall>) -> Ended
        ensures end { own_end result ≡ end }
        ensures outer { result.outer ≡ outer }
    {
        Ended {
            status: end.status,
            journal: end.journal,
            calls: end.calls,
            outer,
        }
    }

    /// A run for which memory was wanting before it was known what is asked. It takes no memory.
    pub(crate) fn early(alloc: Global) -> Ended
        ensures { result ≡ record { status = 5; journal = []; calls = []; outer = [] } }
    {
        Ended::plain(
            alloc,
            run_end::Ended::early(alloc, Exit::OutOfMemory.number()),
        )
    }

    /// The same end, of a run without cookies. It takes no memory.
    pub(crate) fn plain(alloc: Global, end: run_end::Ended) -> Ended
        ensures end { own_end result ≡ end }
        ensures outer { result.outer ≡ [] }
    {
        Ended::with_outer(end, ItemList::new(alloc))
    }
}
