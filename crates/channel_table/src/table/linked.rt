//! How many attempts are in flight on each link.

ghost use Rattle.std.specs.FinMap as map;
ghost use Rattle.std.specs.Prelude.{◌≡◌, ◌+◌, ◌-◌, ◌<◌, ◌^◌, cond, false, filter_map, is_some, length, map, ℕ, OnErr, OnOk};
ghost use Rattle.leg_index.specs.Links.{is_link, used};
ghost use Rattle.channel_table.specs.Faulting.{answer_over, fails_at, kept_of};
ghost use Rattle.channel_table.specs.Forgotten.{begun_flown};
ghost use Rattle.channel_table.specs.Linked.{AreLinked, over_ended, over_left, over_of, over_lookups};
ghost use Rattle.channel_table.specs.Leaving.{row_set};
ghost use Rattle.resolv_options.specs.declared.options.Options.{Options};

use super::counting::has_left;
use super::flown::{Flown, concerns_second, second_left};
use crate::concerned::Concerned;
use crate::held::{Held, row_at};
use crate::lookup::Lookup;
use crate::row::Row;
use chan_types::{Answer, NoMemory, ServerKey, Token};
use leg_index::Links;
use query_machine::Phase;
use std::collections::VecDeque;
use timeout_queue::Key;

/// An attempt of the leg begins on this server over this link, with this identifier, and is due at this moment.
#[inline(always)]
pub fn add_attempt(
    flown: &mut Flown,
    links: &mut Links,
    leg: Key,
    server: u32,
    link: u64,
    id: u16,
    due: u64,
) -> Result<(), NoMemory>
    requires idle { map.contains_key flown.old.deadlines leg ≡ false }
    requires fits { used server link links.old + 1 < 2 ^ 64 }
    ensures flown { OnOk result (flown.new ≡ begun_flown leg id due flown.old) }
    ensures linked { OnOk result ((s l : ℕ)
        → used s l links.new ≡ cond (is_link server link s l) 1 0 + used s l links.old) }
    ensures err { OnErr result (flown.new ≡ flown.old) }
    ensures same { OnErr result ((s l : ℕ) → used s l links.new ≡ used s l links.old) }
{
    links.begin(server, link, id)?;
    match flown.add(leg, id, due) {
        Ok(()) => Ok(()),
        Err(NoMemory) => {
            links.end(server, link, id);
            Err(NoMemory)
        }
    }
}

/// The attempt of the lookup, if it has one, is in flight no longer. It takes no memory.
fn end_lookup(links: &mut Links, lookup: &Lookup)
    ensures { (server link : ℕ)
        → used server link links.new ≡ used server link links.old - over_of server link lookup.now }
{
    if let Phase::InFlight(flying) = lookup.leg.phase {
        links.end(flying.server, flying.link, flying.id);
    }
}

/// The same of the lookups of the row for which this is so. It takes no memory.
#[inline(always)]
fn end_lookups<T: Token>(links: &mut Links, row: &Row<T>, first: bool, second: bool)
    ensures { (server link : ℕ) → used server link links.new
        ≡ used server link links.old - over_lookups first second server link row.now }
{
    if first {
        end_lookup(links, &row.first);
    }
    if let Some(lookup) = &row.second
        && second
    {
        end_lookup(links, lookup.lookup());
    }
}

/// The attempts of the row that an entry concerns are in flight no longer, and none of them where its current candidate
/// then has an answer. It takes no memory.
#[inline(always)]
pub fn end_attempts<T: Token>(
    links: &mut Links,
    row: &Row<T>,
    concerned: Concerned,
    answer: &Option<Answer>,
)
    ensures { (server link : ℕ) → used server link links.new
        ≡ used server link links.old - over_ended concerned (is_some answer.now) server link row.now }
{
    let all = answer.is_some();
    let first = all || concerned.concerns(&row.first, false);
    let second = all || concerns_second(row, concerned);
    end_lookups(links, row, first, second);
}

/// Those that went to this server over this link are in flight no longer, and none of a row with an answer. It takes no
/// memory.
pub fn end_over<T: Token>(
    links: &mut Links,
    rows: &VecDeque<Held<T>>,
    answers: &[Option<Answer>],
    server: u32,
    link: u64,
)
    requires { length answers.now ≡ length rows.now.items }
    ensures { (options : Options) (most : ℕ)
        → answers.now ≡ map (answer_over options server link most) rows.now.items
        → AreLinked links.old rows.now.items
        → AreLinked links.new
        (filter_map kept_of (map (fails_at options server link most) rows.now.items)) }
{
    for index in 0..rows.len() {
        end_attempts(
            links,
            row_at(rows, index),
            Concerned::Over(server, link),
            &answers[index],
        );
    }
}

/// Those on servers that aren't in the list are in flight no longer. It takes no memory.
pub fn end_left<T: Token>(links: &mut Links, rows: &VecDeque<Held<T>>, list: &[ServerKey])
    ensures { AreLinked links.old rows.now.items
        → AreLinked links.new (map (row_set list.now) rows.now.items) }
{
    for index in 0..rows.len() {
        end_left_in(links, row_at(rows, index), list);
    }
}

/// The same for one row.
pub fn end_left_in<T: Token>(links: &mut Links, row: &Row<T>, list: &[ServerKey])
    ensures { (server link : ℕ) → used server link links.new
        ≡ used server link links.old - over_left list.now server link row.now }
{
    end_lookups(
        links,
        row,
        has_left(&row.first, list),
        second_left(row, list),
    );
}
