//! Finding a request by its number, and the first that waits.

ghost use Rattle.std.specs.FinSet as set;
ghost use Rattle.std.specs.List.{AllByRecursion};
ghost use Rattle.std.specs.Prelude.{◌≡◌, ◌<◌, ◌≤◌, IfSome, Some, map, true, OnErr, OnOk};
ghost use Rattle.std.specs.VecDeque.{deque_len};
ghost use Rattle.channel_table.specs.Listed.{FindsIdleWith, FindsNumber, IsListed, IsRising, Keeps, key_of, some_waits, stays};
ghost use Rattle.channel_table.specs.Rows.{number_of};
ghost use Rattle.channel_table.specs.Starting.{FindsIdle};

use super::starting::{Idle, idle_lookup};
use crate::held::{Held, row_at};
use crate::row::Row;
use chan_types::{Answer, NoMemory, Token};
use leg_index::Waiting;
use std::collections::VecDeque;
use timeout_queue::Key;

/// The index of the request with this number: at once where none has left the list between it and the first or between
/// it and the last, else by halves.
#[inline(always)]
pub fn find_row<T: Token>(rows: &VecDeque<Held<T>>, number: u64) -> Option<usize>
    requires { IsRising (map number_of rows.now.items) }
    ensures { FindsNumber number rows.now.items result }
{
    if let Some(index) = count_from_first(rows, number) {
        return Some(index);
    }
    find_apart(rows, number)
}

/// The same where requests between it and the first have left the list. Apart, so that the look-up of a request whose
/// place its number tells is short.
#[inline(never)]
fn find_apart<T: Token>(rows: &VecDeque<Held<T>>, number: u64) -> Option<usize>
    requires { IsRising (map number_of rows.now.items) }
    ensures { FindsNumber number rows.now.items result }
{
    if let Some(index) = count_from_last(rows, number) {
        return Some(index);
    }
    find_by_halves(rows, number)
}

/// The index of the request with this number, if it is as far behind the first one as their numbers are apart.
#[inline(always)]
fn count_from_first<T: Token>(rows: &VecDeque<Held<T>>, number: u64) -> Option<usize>
    ensures { IfSome result (λ index. FindsNumber number rows.now.items (Some index)) }
{
    if rows.is_empty() {
        return None;
    }
    let distance = number.checked_sub(row_at(rows, 0).number)?;
    index_if(rows, distance as usize, number)
}

/// The index of the request with this number, if it is as far before the last one as their numbers are apart.
fn count_from_last<T: Token>(rows: &VecDeque<Held<T>>, number: u64) -> Option<usize>
    ensures { IfSome result (λ index. FindsNumber number rows.now.items (Some index)) }
{
    let last = rows.len().checked_sub(1)?;
    let distance = row_at(rows, last).number.checked_sub(number)?;
    let index = last.checked_sub(distance as usize)?;
    index_if(rows, index, number)
}

/// The index, if the request there has this number.
#[inline(always)]
fn index_if<T: Token>(rows: &VecDeque<Held<T>>, index: usize, number: u64) -> Option<usize>
    ensures { IfSome result (λ index. FindsNumber number rows.now.items (Some index)) }
{
    if index < rows.len() && row_at(rows, index).number == number {
        Some(index)
    } else {
        None
    }
}

/// The index of the request with this number, by halves.
fn find_by_halves<T: Token>(rows: &VecDeque<Held<T>>, number: u64) -> Option<usize>
    requires { IsRising (map number_of rows.now.items) }
    ensures { FindsNumber number rows.now.items result }
{
    let mut low = 0;
    let mut high = rows.len();
    while low < high {
        let middle = middle_of(low, high);
        let here = row_at(rows, middle).number;
        if here == number {
            return Some(middle);
        }
        if here < number {
            low = middle + 1;
        } else {
            high = middle;
        }
    }
    None
}

/// The middle of a range that isn't empty.
fn middle_of(low: usize, high: usize) -> usize
    requires { low < high }
    ensures from { low ≤ result }
    ensures below { result < high }
{
    low + (high - low) / 2
}

/// The first lookup that waits. Requests of which none waits any longer leave those that wait, where they come first.
#[inline(always)]
pub fn first_idle<T: Token>(rows: &VecDeque<Held<T>>, waiting: &mut Waiting) -> Option<Idle>
    requires rising { IsRising (map number_of rows.now.items) }
    requires listed { AllByRecursion (IsListed waiting.old) rows.now.items }
    ensures found { FindsIdle rows.now.items result }
    ensures listed { AllByRecursion (IsListed waiting.new) rows.now.items }
{
    while let Some(first) = waiting.first() {
        if let Some(idle) = idle_with(rows, first.number) {
            return Some(idle);
        }
        waiting.drop_first(first);
    }
    None
}

/// Takes the request at this index out of those that wait, where it comes first and none of its legs waits any longer.
#[inline(always)]
pub fn leave_waiting<T: Token>(rows: &VecDeque<Held<T>>, index: usize, waiting: &mut Waiting)
    requires inside { index < deque_len rows.now }
    requires rising { IsRising (map number_of rows.now.items) }
    ensures { AllByRecursion (IsListed waiting.old) rows.now.items
        → AllByRecursion (IsListed waiting.new) rows.now.items }
{
    let Some(first) = waiting.first() else {
        return;
    };
    let row = row_at(rows, index);
    if row.number == first.number && !some_waits(row) {
        waiting.drop_first(first);
    }
}

/// The first lookup that waits of the request with this number.
#[inline(always)]
fn idle_with<T: Token>(rows: &VecDeque<Held<T>>, number: u64) -> Option<Idle>
    requires { IsRising (map number_of rows.now.items) }
    ensures { FindsIdleWith number rows.now.items result }
{
    let index = find_row(rows, number)?;
    idle_lookup(row_at(rows, index), index)
}

/// The key under which a request waits.
pub fn key_of(number: u64) -> Key
    ensures { result ≡ key_of number }
{
    Key { number, leg: 0 }
}

/// Lists all requests that wait.
pub fn list_all<T: Token>(rows: &VecDeque<Held<T>>, waiting: &mut Waiting) -> Result<(), NoMemory>
    ensures { OnOk result (AllByRecursion (IsListed waiting.new) rows.now.items) }
{
    for index in 0..rows.len() {
        list_row(row_at(rows, index), waiting)?;
    }
    Ok(())
}

/// Lists the request, if it waits.
fn list_row<T: Token>(row: &Row<T>, waiting: &mut Waiting) -> Result<(), NoMemory>
    ensures listed { OnOk result (IsListed waiting.new row.now) }
    ensures kept { OnOk result (Keeps waiting.old waiting.new) }
{
    if some_waits(row) {
        waiting.put(key_of(row.number))?;
    }
    Ok(())
}

/// Lists the request, if it stays where its current candidate has this answer, if it has one.
#[inline(always)]
pub fn list_staying<T: Token>(
    row: &Row<T>,
    answer: &Option<Answer>,
    waiting: &mut Waiting,
) -> Result<(), NoMemory>
    ensures listed { OnOk result (stays answer.now row.now ≡ true
        → set.contains waiting.new (key_of row.now.number) ≡ true) }
    ensures kept { OnOk result (Keeps waiting.old waiting.new) }
    ensures err { OnErr result (waiting.new ≡ waiting.old) }
{
    if stays(row, answer) {
        waiting.put(key_of(row.number))?;
    }
    Ok(())
}

/// A leg of the row waits.
fn some_waits<T: Token>(row: &Row<T>) -> bool
    ensures { result ≡ some_waits row.now }
{
    row.first.waits()
        || match &row.second {
            Some(lookup) => lookup.lookup().waits(),
            None => false,
        }
}

/// The row stays, where its current candidate has this answer, if it has one.
fn stays<T: Token>(row: &Row<T>, answer: &Option<Answer>) -> bool
    ensures { result ≡ stays answer.now row.now }
{
    match answer {
        None => true,
        Some(answer) => row.has_next(answer.status),
    }
}
