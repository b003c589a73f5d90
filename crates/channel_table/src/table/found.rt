//! The end of a row's attempts, and of what finds and counts them.

ghost use Rattle.std.specs.Prelude.{◌≡◌, ◌≤◌, ◌<◌, ◌+◌};
ghost use Rattle.std.specs.VecDeque.{deque_capacity, deque_len};
ghost use Rattle.channel_table.specs.Ends.{EndsRow};
ghost use Rattle.channel_table.specs.Flown.{AreFlown};
ghost use Rattle.channel_table.specs.Linked.{AreLinked};
ghost use Rattle.channel_table.specs.Rows.{all_lookups};
ghost use Rattle.channel_table.specs.Tally.{IsTally};

use super::counting::{Tally, tally_left};
use super::ending::end_row;
use super::flown::Flown;
use super::linked::end_attempts;
use crate::concerned::Concerned;
use crate::held::{Held, row_at};
use chan_types::{Answer, Bytes, Ticket, Token};
use channel_model::Judged;
use leg_index::Links;
use resolv_options::Options;
use std::alloc::Global;
use std::collections::VecDeque;

/// Ends the attempts of the row at this index that an entry concerns, which meant this and came with this reply or
/// none, where a leg may spend so many attempts, and this is then the answer of its current candidate, if it has one.
/// Answers the tally of the rows, which was this one. It takes no memory.
#[inline(always)]
pub fn end_found<T: Token>(
    alloc: Global,
    options: &Options,
    rows: &mut VecDeque<Held<T>>,
    flown: &mut Flown,
    links: &mut Links,
    tally: Tally,
    ready: &mut VecDeque<Ticket<T>>,
    index: usize,
    concerned: Concerned,
    judged: Judged,
    reply: Bytes,
    most: u32,
    answer: Option<Answer>,
) -> Tally
    requires inside { index < deque_len rows.old }
    requires room { deque_len rows.old + deque_len ready.old ≤ deque_capacity ready.old }
    ensures ends { EndsRow options.now.flags concerned judged reply most answer index
        rows.old.items ready.old.items rows.new.items ready.new.items }
    ensures flown { AreFlown flown.old (all_lookups rows.old.items)
        → AreFlown flown.new (all_lookups rows.new.items) }
    ensures linked { AreLinked links.old rows.old.items → AreLinked links.new rows.new.items }
    ensures tally { IsTally rows.old.items tally → IsTally rows.new.items result }
    ensures fewer { deque_len rows.new ≤ deque_len rows.old }
    ensures len { deque_len rows.new + deque_len ready.new ≡ deque_len rows.old + deque_len ready.old }
    ensures capacity { deque_capacity ready.new ≡ deque_capacity ready.old }
{
    let len = rows.len();
    let row = row_at(rows, index);
    let before = Tally::of_row(row);
    flown.forget_ended(row, concerned, &answer);
    end_attempts(links, row, concerned, &answer);
    end_row(
        alloc, options, rows, ready, index, concerned, judged, reply, most, answer,
    );
    tally.moved(before, tally_left(rows, index, len))
}
