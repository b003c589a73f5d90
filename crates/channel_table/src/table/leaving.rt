//! The attempts on servers that leave the list, and the requests that have them where they are few.

ghost use Rattle.std.specs.FinSet as set;
ghost use Rattle.std.specs.List.{sum_by};
ghost use Rattle.std.specs.Prelude.{◌≡◌, ◌<◌, ◌^◌, false, map, true};
ghost use Rattle.std.specs.VecDeque.{deque_len};
ghost use Rattle.channel_table.specs.Flown.{AreFlown};
ghost use Rattle.channel_table.specs.Linked.{AreLinked, left_use};
ghost use Rattle.channel_table.specs.Listed.{Keeps, key_of};
ghost use Rattle.channel_table.specs.Leaving.{SetsRow, kept_in, leg_set, row_set};
ghost use Rattle.channel_table.specs.Rows.{all_lookups};
ghost use Rattle.channel_table.specs.Tally.{IsTally};

use super::channel_servers::has_key;
use super::counting::Tally;
use super::finding::key_of;
use super::flown::Flown;
use super::linked::end_left_in;
use crate::held::{Held, row_at};
use crate::row::Row;
use chan_types::{NoMemory, ServerKey, Token};
use leg_index::{LinkUse, Links, Waiting};
use query_machine::{Leg, Phase};
use std::alloc::Global;
use std::collections::VecDeque;

/// How many attempts the links count on servers that aren't in the list.
pub fn count_left(uses: &[LinkUse], list: &[ServerKey]) -> u64
    requires { sum_by (left_use list.now) uses.now < 2 ^ 64 }
    ensures { result ≡ sum_by (left_use list.now) uses.now }
{
    let mut count: u64 = 0;
    for index in 0..uses.len() {
        count += left_use(uses[index], list);
    }
    count
}

/// How many of them this item counts.
fn left_use(item: LinkUse, list: &[ServerKey]) -> u64
    ensures { result ≡ left_use list.now item }
{
    if !has_key(list, item.server) {
        item.count
    } else {
        0
    }
}

/// Their identifiers, as the links tell them. No clause says that these are they.
pub fn ids_left(alloc: Global, links: &Links, list: &[ServerKey]) -> Result<Vec<u16>, NoMemory> {
    let uses = links.uses();
    let mut ids = Vec::new(alloc);
    for index in 0..uses.len() {
        let LinkUse { server, link, .. } = uses[index];
        if !has_key(list, server) {
            let over = links.ids(alloc, server, link)?;
            ids.extend_from_slice(over.as_slice())?;
        }
    }
    Ok(ids)
}

/// Puts the request of this number among those that wait, and answers whether the memory for it was missing.
pub fn list_number(waiting: &mut Waiting, number: u64) -> bool
    ensures listed { result ≡ false → set.contains waiting.new (key_of number) ≡ true }
    ensures kept { Keeps waiting.old waiting.new }
{
    match waiting.put(key_of(number)) {
        Ok(()) => false,
        Err(_) => true,
    }
}

/// Makes the list that of the request at this index: its attempts on servers that aren't in it end, and no such server is
/// forced. Answers the tally of the requests, which was this one. It takes no memory.
pub fn set_found<T: Token>(
    rows: &mut VecDeque<Held<T>>,
    flown: &mut Flown,
    links: &mut Links,
    tally: Tally,
    index: usize,
    list: &[ServerKey],
) -> Tally
    requires { index < deque_len rows.old }
    ensures sets { SetsRow list.now index rows.old.items rows.new.items }
    ensures flown { AreFlown flown.old (all_lookups rows.old.items)
        → AreFlown flown.new (all_lookups rows.new.items) }
    ensures linked { AreLinked links.old rows.old.items → AreLinked links.new rows.new.items }
    ensures tally { IsTally rows.old.items tally → IsTally rows.new.items result }
    ensures len { deque_len rows.new ≡ deque_len rows.old }
{
    let row = row_at(rows, index);
    let before = Tally::of_row(row);
    flown.forget_left(row, list);
    end_left_in(links, row, list);
    set_at(rows, index, list);
    tally.moved(before, Tally::of_row(row_at(rows, index)))
}

/// Makes the list that of the request at this index, but for what finds and counts its attempts.
fn set_at<T: Token>(rows: &mut VecDeque<Held<T>>, index: usize, list: &[ServerKey])
    requires { index < deque_len rows.old }
    ensures sets { SetsRow list.now index rows.old.items rows.new.items }
    ensures len { deque_len rows.new ≡ deque_len rows.old }
{
    set_held(&mut rows[index], list);
}

/// Makes the list that of the rows: attempts on servers that aren't in it end, and no such server is forced. It takes
/// no memory.
pub fn set_rows<T: Token>(rows: &mut VecDeque<Held<T>>, list: &[ServerKey])
    ensures items { rows.new.items ≡ map (row_set list.now) rows.old.items }
    ensures len { deque_len rows.new ≡ deque_len rows.old }
{
    for index in 0..rows.len() {
        set_held(&mut rows[index], list);
    }
}

/// The same for one of them.
fn set_held<T: Token>(held: &mut Held<T>, list: &[ServerKey])
    ensures { held.new ≡ row_set list.now held.old }
{
    set_row(&mut held.body, list);
}

/// The same for one row.
fn set_row<T: Token>(row: &mut Row<T>, list: &[ServerKey])
    ensures { row.new ≡ row_set list.now row.old }
{
    row.first.leg = set_leg(row.first.leg, list);
    if let Some(lookup) = &mut row.second {
        lookup.body.leg = set_leg(lookup.body.leg, list);
    }
}

/// The leg behind a new list of servers.
fn set_leg(leg: Leg, list: &[ServerKey]) -> Leg
    ensures { result ≡ leg_set list.now leg }
{
    let mut leg = leg;
    match leg.phase {
        Phase::InFlight(flying) if !has_key(list, flying.server) => {
            leg.phase = Phase::Waiting;
            leg.forced = None;
        }
        Phase::Waiting | Phase::InFlight(_) | Phase::Ended(_) => {
            leg.forced = kept_in(list, leg.forced);
        }
    }
    leg
}

/// The server, if it is in the list.
fn kept_in(list: &[ServerKey], server: Option<u32>) -> Option<u32>
    ensures { result ≡ kept_in list.now server }
{
    match server {
        Some(key) if has_key(list, key) => Some(key),
        Some(_) | None => None,
    }
}
