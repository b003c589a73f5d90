//! What the answer of a request is made of.

ghost use Rattle.std.specs.Prelude.{◌≡◌};
ghost use Rattle.channel_table.specs.Wants.{first_number, is_of_addresses, wanted_by};

use chan_types::Spec;
use net_addr::Family;

/// What the answer of a request is made of.
#[derive(Clone, Copy, Debug, PartialEq, Eq)]
pub enum Wanted {
    /// The reply that ended its leg.
    Reply,
    /// The addresses of this family that the replies have, as they stood if the second is set, or sorted.
    Addresses(Family, bool),
}

impl Wanted {
    /// What the answer of a request is made of that asks this.
    pub fn of(spec: &Spec) -> Wanted
        ensures { result ≡ wanted_by spec.now }
    {
        match spec {
            Spec::Query { .. } | Spec::Search { .. } | Spec::Reverse { .. } => Wanted::Reply,
            Spec::Address { family, nosort, .. } => Wanted::Addresses(*family, *nosort),
        }
    }

    /// It is made of addresses.
    pub fn is_of_addresses(self) -> bool
        ensures { result ≡ is_of_addresses self }
    {
        match self {
            Wanted::Reply => false,
            Wanted::Addresses(_, _) => true,
        }
    }

    /// The number of the first leg of a request's first candidate.
    pub fn first_number(self) -> u8
        ensures { result ≡ first_number self }
    {
        match self {
            Wanted::Reply | Wanted::Addresses(Family::Any | Family::V4, _) => 0,
            Wanted::Addresses(Family::V6, _) => 1,
        }
    }
}
