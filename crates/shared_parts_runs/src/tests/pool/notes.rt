//! What notes the tickets that it spends.

use delivery_pool::Spender;
use std::alloc::Global;

/// Notes each ticket that it spends, in order. Where there is no memory it notes nothing, and says so.
#[derive(Drop)]
pub struct Notes {
    pub tickets: Vec<u64>,
    pub missed: bool,
}

impl Notes {
    /// No ticket yet.
    pub fn new(alloc: Global) -> Notes {
        Notes {
            tickets: Vec::new(alloc),
            missed: false,
        }
    }
}

// what it notes is for the tests to compare: no clause speaks of it
impl Spender<u64> for Notes {
    type State = ();

    ghost state = { λ notes. tt };

    ghost spends = { λ old ticket new. Unit {0} };

    fn spend(&mut self, ticket: u64) {
        self.missed |= self.tickets.push(ticket).is_err();
    }
}
