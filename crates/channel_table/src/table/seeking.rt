//! What is due first, and whether a link is busy.

ghost use Rattle.std.specs.Prelude.{◌≡◌, ◌<◌, IfSome};
ghost use Rattle.channel_table.specs.DueLookups.{IsDueOf, due_lookup, is_due};
ghost use Rattle.channel_model.specs.Meanings.{TellsBusy, TellsDue};
ghost use Rattle.channel_model.specs.Seen.{Happens};
ghost use Rattle.channel_table.specs.Tokens.{seen};
ghost use Rattle.channel_table.specs.Soonest.{IsSoonest, is_sooner, sooner, sooner_row};

use super::Table;
use crate::held::{Held, row_at};
use crate::lookup::Lookup;
use crate::row::Row;
use chan_types::Token;
use channel_journal::ChannelJournal;
use query_machine::Phase;
use std::collections::VecDeque;
use timeout_queue::Key;

impl<T: Token, J: ChannelJournal> Table<T, J> {
    /// Whether an attempt is in flight on this server over this link.
    pub fn link_busy(&self, server: u32, link: u64) -> bool
        ensures { Happens (TellsBusy server link result) 0 0 (seen self.now) (seen self.now) }
    {
        self.rows.any_over(server, link)
    }

    /// When the next attempt in flight is due.
    pub fn next_due(&self) -> Option<u64>
        ensures { Happens (TellsDue result) 0 0 (seen self.now) (seen self.now) }
    {
        self.rows.first_due()
    }
}

/// An attempt in flight: its row, which lookup of it, when it is due, its request, and its leg.
#[derive(Clone, Copy, Debug, PartialEq, Eq)]
pub struct Soonest {
    pub index: usize,
    pub is_second: bool,
    pub at: u64,
    pub number: u64,
    pub leg_number: u8,
}

/// The attempt that is due first: by its deadline, then its request, then its leg.
pub fn find_soonest<T: Token>(rows: &VecDeque<Held<T>>) -> Option<Soonest>
    ensures { IsSoonest rows.now.items result }
{
    let mut best: Option<Soonest> = None;
    for index in 0..rows.len() {
        best = sooner_row(best, index, row_at(rows, index));
    }
    best
}

/// The sooner of the best attempt so far and those of one more row.
fn sooner_row<T: Token>(best: Option<Soonest>, index: usize, row: &Row<T>) -> Option<Soonest>
    ensures { result ≡ sooner_row best index row.now }
{
    let best = sooner(best, index, false, &row.first);
    match &row.second {
        Some(lookup) => sooner(best, index, true, lookup.lookup()),
        None => best,
    }
}

/// The sooner of the best attempt so far and that of one more lookup.
fn sooner(best: Option<Soonest>, index: usize, is_second: bool, lookup: &Lookup) -> Option<Soonest>
    ensures { result ≡ sooner best index is_second lookup.now }
{
    let Phase::InFlight(flying) = lookup.leg.phase else {
        return best;
    };
    let next = Soonest {
        index,
        is_second,
        at: flying.due,
        number: lookup.number,
        leg_number: lookup.leg_number,
    };
    match best {
        None => Some(next),
        Some(first) => {
            if is_sooner(next, first) {
                Some(next)
            } else {
                Some(first)
            }
        }
    }
}

/// The one is due before the other: earlier, or at the same moment with the lesser request, or the lesser leg of it.
fn is_sooner(next: Soonest, first: Soonest) -> bool
    ensures { result ≡ is_sooner next first }
{
    next.at < first.at
        || (next.at == first.at
            && (next.number < first.number
                || (next.number == first.number && next.leg_number < first.leg_number)))
}

/// The lookup of the row at this index whose leg this is, if its attempt is due at this moment.
pub fn lookup_due<T: Token>(row: &Row<T>, index: usize, leg: Key, due: u64) -> Option<Soonest>
    ensures { IfSome result (IsDueOf index row.now leg due) }
{
    if is_due(&row.first, leg, due) {
        return Some(due_lookup(index, false, leg, due));
    }
    match &row.second {
        Some(lookup) if is_due(lookup.lookup(), leg, due) => Some(due_lookup(
            index, true, leg, due,
        )),
        Some(_) | None => None,
    }
}

/// This leg's attempt, which is due at this moment.
fn due_lookup(index: usize, is_second: bool, leg: Key, due: u64) -> Soonest
    ensures { result ≡ due_lookup index is_second leg due }
{
    Soonest {
        index,
        is_second,
        at: due,
        number: leg.number,
        leg_number: leg.leg,
    }
}

/// The lookup's leg is this one, and its attempt is due at this moment.
fn is_due(lookup: &Lookup, leg: Key, due: u64) -> bool
    ensures { result ≡ is_due leg due lookup.now }
{
    lookup.number == leg.number
        && lookup.leg_number == leg.leg
        && match lookup.leg.phase {
            Phase::InFlight(flying) => flying.due == due,
            Phase::Waiting | Phase::Ended(_) => false,
        }
}
