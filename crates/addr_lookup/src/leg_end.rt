//! How the legs of an Address request end.

ghost use Rattle.std.specs.Bool.{Decides};
ghost use Rattle.std.specs.Prelude.{◌≡◌};
ghost use Rattle.std.specs.List.{list_all};
ghost use Rattle.dns_message.specs.Validity.{well_formed};

use chan_types::Status;
use dns_message::{Record, RecordList};

/// How a leg of an Address request's candidate ended.
#[derive(Debug, Drop)]
pub enum LegEnd {
    /// The request has no such leg.
    Unused,
    /// The leg ended with this status, and the reply that ended it has these answers.
    Ended(Status, RecordList),
}

impl LegEnd {
    ghost use Rattle.addr_lookup.specs.Ends.{AreWellFormed};

    /// Whether each record has the shape of its kind and class. Those of a decoded message have it.
    #[tactic(auto, using(crate::proofs::FormLemmas::all_say))]
    pub fn is_well_formed(&self) -> bool
        ensures { Decides result (AreWellFormed self.now) }
    {
        match self {
            LegEnd::Unused => true,
            LegEnd::Ended(_, records) => are_well_formed(records.as_slice()),
        }
    }
}

/// Whether each record has the shape of its kind and class.
fn are_well_formed(records: &[Record]) -> bool
    ensures { result ≡ list_all well_formed records.now }
{
    records.iter().all(|item| item.is_well_formed())
}
