//! What a run came to, before its text is put.

ghost use Rattle.std.specs.Prelude.{◌≡◌};

use chan_types::{Calls, Journal};
use resolv_options::Options;
use run_end::Ended;

/// The options of a run's channel, its journal, and the answers that its callbacks were called with.
#[derive(Drop)]
pub struct Outcome {
    pub options: Options,
    pub journal: Journal,
    pub calls: Calls,
}

impl Outcome {
    /// What the run hands out, with this exit status.
    pub fn ended(self, status: u8) -> Ended
        ensures { result ≡ record { status = status; journal = self.journal; calls = self.calls } }
    {
        let Outcome {
            options: _,
            journal,
            calls,
        } = self;
        Ended {
            status,
            journal,
            calls,
        }
    }
}
