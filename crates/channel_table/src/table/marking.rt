//! The rows of which attempts fail where they are few: they alone are looked at and changed.

ghost use Rattle.std.specs.List.{AllByRecursion, sum_by};
ghost use Rattle.std.specs.Prelude.{◌≡◌, ◌≢◌, ◌<◌, ◌≤◌, ◌+◌, [], IfOk, map};
ghost use Rattle.std.specs.VecDeque.{deque_capacity, deque_len};
ghost use Rattle.chan_types.specs.declared.status.Status.TheVariants.{ConnRefused};
ghost use Rattle.channel_model.specs.declared.judged.Judged.TheVariants.{Failed};
ghost use Rattle.channel_table.specs.Ends.{EndsRow};
ghost use Rattle.channel_table.specs.Faulting.{AreMarked, FailsOver, IsUnanswered};
ghost use Rattle.channel_table.specs.Flown.{AreFlown};
ghost use Rattle.channel_table.specs.Linked.{AreLinked};
ghost use Rattle.channel_table.specs.Listed.{IsListedOver, IsRising, Keeps};
ghost use Rattle.channel_table.specs.Rows.{all_lookups, number_of, over_in};
ghost use Rattle.channel_table.specs.Tally.{IsTally};
ghost use Rattle.channel_table.specs.declared.concerned.Concerned.TheVariants.{Over};

use super::counting::{Sought, Tally, count_in};
use super::failing::answer_over;
use super::finding::{find_row, key_of};
use super::flown::Flown;
use super::found::end_found;
use super::taking::pop_first;
use crate::concerned::Concerned;
use crate::held::{Held, row_at};
use chan_types::{Answer, Bytes, NoMemory, Status, Ticket, Token};
use channel_model::Judged;
use leg_index::{Flights, Links, Waiting};
use resolv_options::Options;
use std::alloc::Global;
use std::collections::VecDeque;

/// A row of which attempts fail: how many rows stand between it and the one before it of which some do, and the answer
/// that its current candidate then has, if it has one.
#[derive(Drop)]
pub struct Mark {
    pub gap: usize,
    pub answer: Option<Answer>,
}

/// Rows of which attempts fail, in order, and how many attempts those are.
#[derive(Drop)]
pub struct Marked {
    pub marks: VecDeque<Mark>,
    pub count: u64,
}

/// How many attempts are few at most: each row that leaves the list on its own moves others, so that many are better
/// taken out in one pass.
const FEW_MOST: u64 = 256;

/// Whether so many attempts are few beside so many rows.
pub fn are_few(count: u64, rows: usize) -> bool {
    count <= FEW_MOST && count <= rows as u64 / 4
}

/// The indexes of the rows with an attempt on this server over this link, in order, as the links tell their identifiers.
/// No clause says that these are they.
pub fn indexes_over<T: Token>(
    alloc: Global,
    rows: &VecDeque<Held<T>>,
    flights: &Flights,
    links: &Links,
    server: u32,
    link: u64,
) -> Result<Vec<usize>, NoMemory>
    requires { IsRising (map number_of rows.now.items) }
{
    let ids = links.ids(alloc, server, link)?;
    let mut indexes = Vec::with_capacity(alloc, ids.len())?;
    for place in 0..ids.len() {
        if let Some(leg) = flights.leg(ids[place])
            && let Some(index) = find_row(rows, leg.number)
        {
            indexes.push(index)?;
        }
    }
    indexes.as_mut_slice().sort_unstable();
    Ok(indexes)
}

/// The rows at these indexes, with what a fault of this server's link makes of them, where a leg may spend so many
/// attempts. They are among those that wait then. An index that doesn't rise, or at which no row is, is passed over:
/// whether these are all rows with an attempt over the link is told by their count.
pub fn marks_at<T: Token>(
    alloc: Global,
    options: &Options,
    rows: &VecDeque<Held<T>>,
    waiting: &mut Waiting,
    indexes: &[usize],
    server: u32,
    link: u64,
    most: u32,
) -> Result<Marked, NoMemory>
    ensures marks { IfOk result (λ found. found.count ≡ sum_by (over_in server link) rows.now.items
        → AreMarked options.now server link most found.marks.items rows.now.items) }
    ensures listed { IfOk result (λ found. found.count ≡ sum_by (over_in server link) rows.now.items
        → AllByRecursion (IsListedOver server link waiting.new) rows.now.items) }
    ensures kept { Keeps waiting.old waiting.new }
{
    let mut marks = VecDeque::new(alloc);
    let mut count: u64 = 0;
    let mut from = 0;
    for place in 0..indexes.len() {
        let index = indexes[place];
        if index < from || index >= rows.len() {
            continue;
        }
        let row = row_at(rows, index);
        waiting.put(key_of(row.number))?;
        let answer = answer_over(alloc, options, row, server, link, most)?;
        let gap = index - from;
        marks.push_back(Mark { gap, answer })?;
        count += count_in(row, Sought::Over(server, link));
        from = index + 1;
    }
    Ok(Marked { marks, count })
}

/// Fails the attempts of the rows that are marked for a fault of this server's link. Rows that go on are kept in order,
/// and the others get ready. It takes no memory.
pub fn fail_marked<T: Token>(
    alloc: Global,
    options: &Options,
    rows: &mut VecDeque<Held<T>>,
    flown: &mut Flown,
    links: &mut Links,
    tally: &mut Tally,
    marks: VecDeque<Mark>,
    ready: &mut VecDeque<Ticket<T>>,
    server: u32,
    link: u64,
    most: u32,
)
    requires unanswered { AllByRecursion (IsUnanswered options.now) rows.old.items }
    requires marked { AreMarked options.now server link most marks.items rows.old.items }
    requires room { deque_len rows.old + deque_len ready.old ≤ deque_capacity ready.old }
    ensures fails { FailsOver options.now server link most rows.old.items ready.old.items
        rows.new.items ready.new.items }
    ensures flown { AreFlown flown.old (all_lookups rows.old.items)
        → AreFlown flown.new (all_lookups rows.new.items) }
    ensures linked { AreLinked links.old rows.old.items → AreLinked links.new rows.new.items }
    ensures tally { IsTally rows.old.items tally.old → IsTally rows.new.items tally.new }
    ensures fewer { deque_len rows.new ≤ deque_len rows.old }
    ensures len { deque_len rows.new + deque_len ready.new ≡ deque_len rows.old + deque_len ready.old }
    ensures capacity { deque_capacity ready.new ≡ deque_capacity ready.old }
{
    let mut marks = marks;
    let mut from = 0;
    while !marks.is_empty() {
        let Mark { gap, answer } = pop_first(&mut marks);
        from = fail_next(
            alloc,
            options,
            rows,
            flown,
            links,
            tally,
            ready,
            from + gap,
            answer,
            server,
            link,
            most,
        );
    }
}

/// Fails the attempts of the row at this index, where this is then the answer of its current candidate, if it has one,
/// and answers the index of the row behind it. It takes no memory.
fn fail_next<T: Token>(
    alloc: Global,
    options: &Options,
    rows: &mut VecDeque<Held<T>>,
    flown: &mut Flown,
    links: &mut Links,
    tally: &mut Tally,
    ready: &mut VecDeque<Ticket<T>>,
    index: usize,
    answer: Option<Answer>,
    server: u32,
    link: u64,
    most: u32,
) -> usize
    requires inside { index < deque_len rows.old }
    requires room { deque_len rows.old + deque_len ready.old ≤ deque_capacity ready.old }
    ensures ends { EndsRow options.now.flags (Over server link) (Failed ConnRefused) [] most answer index
        rows.old.items ready.old.items rows.new.items ready.new.items }
    ensures flown { AreFlown flown.old (all_lookups rows.old.items)
        → AreFlown flown.new (all_lookups rows.new.items) }
    ensures linked { AreLinked links.old rows.old.items → AreLinked links.new rows.new.items }
    ensures tally { IsTally rows.old.items tally.old → IsTally rows.new.items tally.new }
    ensures stays { deque_len rows.new ≡ deque_len rows.old → result ≡ index + 1 }
    ensures leaves { deque_len rows.new ≢ deque_len rows.old → result ≡ index }
    ensures fewer { deque_len rows.new ≤ deque_len rows.old }
    ensures len { deque_len rows.new + deque_len ready.new ≡ deque_len rows.old + deque_len ready.old }
    ensures capacity { deque_capacity ready.new ≡ deque_capacity ready.old }
{
    let len = rows.len();
    *tally = end_found(
        alloc,
        options,
        rows,
        flown,
        links,
        *tally,
        ready,
        index,
        Concerned::Over(server, link),
        Judged::Failed(Status::ConnRefused),
        Bytes::new(alloc),
        most,
        answer,
    );
    if rows.len() == len { index + 1 } else { index }
}
