//! Which lookups of a row an entry concerns.

ghost use Rattle.std.specs.Prelude.{◌≡◌};
ghost use Rattle.channel_table.specs.Lookups.{concerned_at, concerns};

use crate::lookup::Lookup;

/// Which lookups of a row an entry concerns.
#[derive(Clone, Copy, Debug, PartialEq, Eq)]
pub enum Concerned {
    /// The first, if its attempt is in flight.
    First,
    /// The second, if its attempt is in flight.
    Second,
    /// Each whose attempt is in flight on this server over this link.
    Over(u32, u64),
}

impl Concerned {
    /// The second lookup of a row, or the first.
    pub fn at(is_second: bool) -> Concerned
        ensures { result ≡ concerned_at is_second }
    {
        if is_second {
            Concerned::Second
        } else {
            Concerned::First
        }
    }

    /// It concerns a lookup, which is the second of its row or the first.
    pub fn concerns(self, lookup: &Lookup, is_second: bool) -> bool
        ensures { result ≡ concerns self is_second lookup.now }
    {
        match self {
            Concerned::First => !is_second && lookup.is_flying(),
            Concerned::Second => is_second && lookup.is_flying(),
            Concerned::Over(server, link) => lookup.flew_over(server, link),
        }
    }
}
