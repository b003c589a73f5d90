//! How many requests and attempts there are.

ghost use Rattle.std.specs.Prelude.{◌≡◌, ◌<◌, ◌≤◌, cond, count_by, option_to_list};
ghost use Rattle.std.specs.List.{sum_by};
ghost use Rattle.channel_model.specs.Meanings.{TellsCounts};
ghost use Rattle.channel_model.specs.Seen.{Happens};
ghost use Rattle.channel_table.specs.Tokens.{seen};
ghost use Rattle.channel_table.specs.Leaving.{has_left};
ghost use Rattle.channel_table.specs.Lookups.{is_flying, is_forced, waits};
ghost use Rattle.channel_table.specs.Sought.{is_sought, sought_in};
ghost use Rattle.channel_table.specs.Tally.{HasMoved, IsTally, IsTallyLeft, Moves, no_tally, one_flying, one_waiting, tally_of};

use super::Table;
use super::channel_servers::has_key;
use crate::held::{Held, row_at};
use crate::lookup::Lookup;
use crate::row::Row;
use chan_types::{ServerKey, Token};
use channel_journal::ChannelJournal;
use channel_model::Counts;
use query_machine::Phase;
use std::collections::VecDeque;

impl<T: Token, J: ChannelJournal> Table<T, J> {
    /// How much is pending, ready, waiting and in flight.
    pub fn counts(&self) -> Counts
        ensures { Happens (TellsCounts result) 0 0 (seen self.now) (seen self.now) }
    {
        Counts {
            pending: self.rows.len() as u64,
            ready: self.ready.len() as u64,
            waiting: self.rows.waiting_count(),
            flying: self.rows.flying_count(),
        }
    }
}

/// How many legs of some requests wait, how many attempts of theirs are in flight, and how many legs have a server that
/// their next attempt has to go to.
#[derive(Clone, Copy, Debug, PartialEq, Eq)]
pub struct Tally {
    pub waiting: u64,
    pub flying: u64,
    pub forced: u64,
}

impl Tally {
    /// That of no request.
    pub fn none() -> Tally
        ensures { result ≡ no_tally }
    {
        Tally {
            waiting: 0,
            flying: 0,
            forced: 0,
        }
    }

    /// That of one request.
    #[inline(always)]
    pub fn of_row<T: Token>(row: &Row<T>) -> Tally
        ensures { result ≡ tally_of row.now }
    {
        Tally {
            waiting: one_if(row.first.waits()) + one_if(second_waits(row)),
            flying: one_if(row.first.is_flying()) + one_if(second_flies(row)),
            forced: one_if(row.first.is_forced()) + one_if(second_is_forced(row)),
        }
    }

    /// That of all requests of the list.
    pub fn of_rows<T: Token>(rows: &VecDeque<Held<T>>) -> Tally
        ensures { IsTally rows.now.items result }
    {
        Tally {
            waiting: count_lookups(rows, Sought::Waiting),
            flying: count_lookups(rows, Sought::Flying),
            forced: count_lookups(rows, Sought::Forced),
        }
    }

    /// The same where a leg that waited has its attempt in flight.
    pub fn begun(self) -> Tally
        ensures { HasMoved self one_waiting one_flying result }
    {
        Tally {
            waiting: moved(self.waiting, 1, 0),
            flying: moved(self.flying, 0, 1),
            forced: moved(self.forced, 0, 0),
        }
    }

    /// The same where a part of it has changed: from this tally to that one.
    #[inline(always)]
    pub fn moved(self, before: Tally, behind: Tally) -> Tally
        ensures { HasMoved self before behind result }
    {
        Tally {
            waiting: moved(self.waiting, before.waiting, behind.waiting),
            flying: moved(self.flying, before.flying, behind.flying),
            forced: moved(self.forced, before.forced, behind.forced),
        }
    }
}

/// A count of which a part has changed: from this count to that one.
fn moved(count: u64, before: u64, behind: u64) -> u64
    ensures { Moves count before behind result }
{
    count.saturating_sub(before).saturating_add(behind)
}

/// The tally of the request at this index, where the list is as long as it was, and else that of none: the request has
/// left it.
#[inline(always)]
pub fn tally_left<T: Token>(rows: &VecDeque<Held<T>>, index: usize, len: usize) -> Tally
    requires { index < len }
    ensures { IsTallyLeft index len rows.now.items result }
{
    if rows.len() == len {
        Tally::of_row(row_at(rows, index))
    } else {
        Tally::none()
    }
}

/// Which lookups of the rows are counted.
#[derive(Clone, Copy)]
pub enum Sought {
    /// Those whose leg waits.
    Waiting,
    /// Those that have an attempt in flight.
    Flying,
    /// Those whose leg has a server that its next attempt has to go to.
    Forced,
    /// Those that have an attempt in flight on this server over this link.
    Over(u32, u64),
}

impl Sought {
    /// The lookup is counted.
    fn counts(self, lookup: &Lookup) -> bool
        ensures { result ≡ is_sought self lookup.now }
    {
        match self {
            Sought::Waiting => lookup.waits(),
            Sought::Flying => lookup.is_flying(),
            Sought::Forced => lookup.is_forced(),
            Sought::Over(server, link) => lookup.flew_over(server, link),
        }
    }
}

/// The lookup has an attempt on a server that isn't in the list.
pub fn has_left(lookup: &Lookup, list: &[ServerKey]) -> bool
    ensures { result ≡ has_left list.now lookup.now }
{
    match lookup.leg.phase {
        Phase::InFlight(flying) => !has_key(list, flying.server),
        Phase::Waiting | Phase::Ended(_) => false,
    }
}

/// How many lookups of the rows are counted.
pub fn count_lookups<T: Token>(rows: &VecDeque<Held<T>>, sought: Sought) -> u64
    ensures { result ≡ sum_by (sought_in sought) rows.now.items }
{
    let mut count: u64 = 0;
    for index in 0..rows.len() {
        count += count_in(row_at(rows, index), sought);
    }
    count
}

/// How many lookups of the row are counted.
pub fn count_in<T: Token>(row: &Row<T>, sought: Sought) -> u64
    ensures value { result ≡ sought_in sought row.now }
    ensures few { result ≤ 2 }
{
    let first = sought.counts(&row.first);
    let second = match &row.second {
        Some(lookup) => sought.counts(lookup.lookup()),
        None => false,
    };
    one_if(first) + one_if(second)
}

/// The row has a second lookup, whose leg waits.
fn second_waits<T: Token>(row: &Row<T>) -> bool
    ensures { cond result 1 0 ≡ count_by waits (option_to_list row.now.second) }
{
    match &row.second {
        Some(lookup) => lookup.lookup().waits(),
        None => false,
    }
}

/// The row has a second lookup, which has an attempt in flight.
fn second_flies<T: Token>(row: &Row<T>) -> bool
    ensures { cond result 1 0 ≡ count_by is_flying (option_to_list row.now.second) }
{
    match &row.second {
        Some(lookup) => lookup.lookup().is_flying(),
        None => false,
    }
}

/// The row has a second lookup, whose leg has a server that its next attempt has to go to.
fn second_is_forced<T: Token>(row: &Row<T>) -> bool
    ensures { cond result 1 0 ≡ count_by is_forced (option_to_list row.now.second) }
{
    match &row.second {
        Some(lookup) => lookup.lookup().is_forced(),
        None => false,
    }
}

/// 1 where it is so, else 0.
fn one_if(so: bool) -> u64
    ensures { result ≡ cond so 1 0 }
{
    if so { 1 } else { 0 }
}
