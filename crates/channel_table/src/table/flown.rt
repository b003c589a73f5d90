//! What finds the attempts in flight: by their identifiers, and by when they are due.

ghost use Rattle.std.specs.FinMap as map;
ghost use Rattle.std.specs.Prelude.{◌≡◌, [], false, filter_map, is_some, length, map, ℕ, IfOk, OnErr, OnOk};
ghost use Rattle.channel_table.specs.Flown.{AreFlown, key_of_lookup};
ghost use Rattle.channel_table.specs.Forgotten.{begun_flown, ended_of, forgotten, concerns_second, left_of, left_second};
ghost use Rattle.channel_table.specs.Faulting.{answer_over, fails_at, kept_of};
ghost use Rattle.channel_table.specs.Leaving.{has_left, row_set};
ghost use Rattle.channel_table.specs.Rows.{all_lookups};
ghost use Rattle.resolv_options.specs.declared.options.Options.{Options};

use super::counting::has_left;
use crate::concerned::Concerned;
use crate::held::{Held, row_at};
use crate::lookup::Lookup;
use crate::row::Row;
use chan_types::{Answer, NoMemory, ServerKey, Token};
use leg_index::Flights;
use query_machine::Phase;
use std::alloc::Global;
use std::collections::VecDeque;
use timeout_queue::{Key, Queue};

/// What finds the attempts in flight.
#[derive(Drop)]
pub struct Flown {
    /// Their legs, by their identifiers.
    pub flights: Flights,
    /// When they are due, by their legs.
    pub deadlines: Queue,
}

impl Flown {
    /// No attempt.
    pub fn make(alloc: Global) -> Result<Flown, NoMemory>
        ensures { IfOk result (λ flown. AreFlown flown []) }
    {
        let flights = Flights::make(alloc)?;
        let deadlines = Queue::make(alloc);
        Ok(Flown { flights, deadlines })
    }

    /// An attempt of the leg begins, with this identifier, and is due at this moment.
    #[inline(always)]
    pub fn add(&mut self, leg: Key, id: u16, due: u64) -> Result<(), NoMemory>
        requires idle { map.contains_key self.old.deadlines leg ≡ false }
        ensures ok { OnOk result (self.new ≡ begun_flown leg id due self.old) }
        ensures err { OnErr result (self.new ≡ self.old) }
    {
        self.deadlines.put(leg, due)?;
        match self.flights.begin(id, leg) {
            Ok(()) => Ok(()),
            Err(_) => {
                self.deadlines.drop_key(leg);
                Err(NoMemory)
            }
        }
    }

    /// Forgets the attempt of the lookup, if it has one. It takes no memory.
    #[inline(always)]
    fn forget(&mut self, lookup: &Lookup)
        ensures { self.new ≡ forgotten lookup.now self.old }
    {
        if let Phase::InFlight(flying) = lookup.leg.phase {
            self.flights.end(flying.id);
            self.deadlines.drop_key(key_of_lookup(lookup));
        }
    }

    /// Forgets the attempts of the lookups of the row for which this is so. It takes no memory.
    #[inline(always)]
    fn forget_lookups<T: Token>(&mut self, row: &Row<T>, first: bool, second: bool)
        ensures { self.new ≡ left_of first second row.now self.old }
    {
        if first {
            self.forget(&row.first);
        }
        if let Some(lookup) = &row.second
            && second
        {
            self.forget(lookup.lookup());
        }
    }

    /// Forgets the attempts of the row that an entry concerns, and all of them where its current candidate then has an
    /// answer. It takes no memory.
    #[inline(always)]
    pub fn forget_ended<T: Token>(
        &mut self,
        row: &Row<T>,
        concerned: Concerned,
        answer: &Option<Answer>,
    )
        ensures { self.new ≡ ended_of concerned (is_some answer.now) row.now self.old }
    {
        let all = answer.is_some();
        let first = all || concerned.concerns(&row.first, false);
        let second = all || concerns_second(row, concerned);
        self.forget_lookups(row, first, second);
    }

    /// Forgets the attempts of the row on servers that aren't in the list. It takes no memory.
    pub fn forget_left<T: Token>(&mut self, row: &Row<T>, list: &[ServerKey])
        ensures { self.new
            ≡ left_of (has_left list.now row.now.first) (left_second list.now row.now.second) row.now self.old }
    {
        let first = has_left(&row.first, list);
        let second = second_left(row, list);
        self.forget_lookups(row, first, second);
    }
}

/// The entry concerns the second lookup of the row, if there is one.
pub fn concerns_second<T: Token>(row: &Row<T>, concerned: Concerned) -> bool
    ensures { result ≡ concerns_second concerned row.now.second }
{
    match &row.second {
        Some(lookup) => concerned.concerns(lookup.lookup(), true),
        None => false,
    }
}

/// Forgets the attempts that went to this server over this link, and all of a row with an answer. It takes no memory.
pub fn forget_over<T: Token>(
    flown: &mut Flown,
    rows: &VecDeque<Held<T>>,
    answers: &[Option<Answer>],
    server: u32,
    link: u64,
)
    requires { length answers.now ≡ length rows.now.items }
    ensures { (options : Options) (most : ℕ)
        → answers.now ≡ map (answer_over options server link most) rows.now.items
        → AreFlown flown.old (all_lookups rows.now.items)
        → AreFlown flown.new
        (all_lookups (filter_map kept_of (map (fails_at options server link most) rows.now.items))) }
{
    for index in 0..rows.len() {
        flown.forget_ended(
            row_at(rows, index),
            Concerned::Over(server, link),
            &answers[index],
        );
    }
}

/// Forgets the attempts on servers that aren't in the list. It takes no memory.
pub fn forget_left<T: Token>(flown: &mut Flown, rows: &VecDeque<Held<T>>, list: &[ServerKey])
    ensures { AreFlown flown.old (all_lookups rows.now.items)
        → AreFlown flown.new (all_lookups (map (row_set list.now) rows.now.items)) }
{
    for index in 0..rows.len() {
        flown.forget_left(row_at(rows, index), list);
    }
}

/// The attempt of the second lookup of the row is on a server that isn't in the list.
pub fn second_left<T: Token>(row: &Row<T>, list: &[ServerKey]) -> bool
    ensures { result ≡ left_second list.now row.now.second }
{
    match &row.second {
        Some(lookup) => has_left(lookup.lookup(), list),
        None => false,
    }
}

/// Forgets all attempts of the rows. It takes no memory.
pub fn forget_all<T: Token>(flown: &mut Flown, rows: &VecDeque<Held<T>>)
    ensures { AreFlown flown.old (all_lookups rows.now.items) → AreFlown flown.new [] }
{
    for index in 0..rows.len() {
        flown.forget_lookups(row_at(rows, index), true, true);
    }
}

/// The key of a lookup's leg.
pub fn key_of_lookup(lookup: &Lookup) -> Key
    ensures { result ≡ key_of_lookup lookup.now }
{
    Key {
        number: lookup.number,
        leg: lookup.leg_number,
    }
}
