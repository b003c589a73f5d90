//! The deadlines in their order: two rows to which later ones come at the end, and a tree for those that would fit
//! behind neither.
//!
//! A deadline that is dropped stays in its row until it is the first there. Moments mostly rise, so that a put and a
//! drop are a few steps at the ends of a row. The second row takes what is due sooner than the last of the first one,
//! as first attempts are beside repeated ones, which wait longer.
ghost use Rattle.std.specs.Prelude.{◌≡◌, ◌⊎◌, Bool, true, false, get_or, MatchOption, OnOk, OnErr};
ghost use Rattle.std.specs.List.{slice_get};
ghost use Rattle.std.specs.Option.{option_copied};
ghost use Rattle.timeout_queue.specs.Rows.{AreLed, HoldsAll, LeavesTree, is_live, IsBehind, IsRising, IsLed, KeepsLive, Thins, AddsLive, DropsLive, Extends, HaveLive, IsFirstLive, sooner_of};
ghost use Rattle.timeout_queue.specs.declared.key.Deadline.{Deadline};

use crate::by_number::Moments;
use crate::key::{Deadline, Key};
use std::alloc::{AllocError, Global};
use std::collections::{BTreeSet, VecDeque};

/// Deadlines in their order.
#[derive(Drop)]
pub(crate) struct Rows {
    row: VecDeque<Deadline>,
    other: VecDeque<Deadline>,
    rest: BTreeSet<Deadline>,
}

impl Rows {
    /// No deadlines. It takes no memory.
    pub(crate) fn new(alloc: Global) -> Rows
        ensures { (live : Deadline → Bool) → ((d : Deadline) → live d ≡ true → ⊥) → HaveLive live result }
    {
        Rows {
            row: VecDeque::new(alloc),
            other: VecDeque::new(alloc),
            rest: BTreeSet::new(alloc),
        }
    }

    /// Takes in a deadline whose key isn't among the moments yet.
    #[inline(always)]
    pub(crate) fn add(&mut self, moments: &Moments, deadline: Deadline) -> Result<(), AllocError>
        requires { HaveLive (is_live moments.now) self.old }
        ensures ok { OnOk result ((after : Deadline → Bool)
            → AddsLive (is_live moments.now) deadline after → HaveLive after self.new) }
        ensures err { OnErr result (HaveLive (is_live moments.now) self.new) }
    {
        if fits(&self.row, deadline) {
            return push(&mut self.row, moments, deadline);
        }
        if fits(&self.other, deadline) {
            return push(&mut self.other, moments, deadline);
        }
        self.rest.insert(deadline)?;
        Ok(())
    }

    /// Takes out a deadline whose key was among the moments.
    #[inline(always)]
    pub(crate) fn remove(&mut self, moments: &Moments, deadline: Deadline)
        requires { (before : Deadline → Bool) × HaveLive before self.old
            × DropsLive before deadline (is_live moments.now) }
        ensures { HaveLive (is_live moments.now) self.new }
    {
        let first = leave(&mut self.row, deadline);
        let second = leave(&mut self.other, deadline);
        drop_apart(&mut self.rest, deadline);
        if self.all_stand(moments) {
            return;
        }
        settle(&mut self.row, moments, first);
        settle(&mut self.other, moments, second);
    }

    // No deadline that was dropped is left: there are as many as there are keys.
    #[inline(always)]
    fn all_stand(&self, moments: &Moments) -> bool
        ensures { result ≡ true → HoldsAll (is_live moments.now) self.now
            → AreLed (is_live moments.now) self.now }
    {
        let in_rows = self.row.len() + self.other.len();
        in_rows.saturating_add(self.rest.len()) == moments.len()
    }

    /// The first deadline.
    #[inline(always)]
    pub(crate) fn first(&self) -> Option<&Deadline>
        ensures { (live : Deadline → Bool) → HaveLive live self.now
            → MatchOption (option_copied result) ((d : Deadline) → live d ≡ true → ⊥) (IsFirstLive live) }
    {
        let front = sooner(front(&self.row), front(&self.other));
        sooner(front, self.rest.first())
    }
}

// The first of the row.
#[inline(always)]
fn front(row: &VecDeque<Deadline>) -> Option<&Deadline>
    ensures { option_copied result ≡ slice_get row.now.items 0 }
{
    row.get(0)
}

// Whether no deadline of the row is later.
#[inline(always)]
fn fits(row: &VecDeque<Deadline>, deadline: Deadline) -> bool
    requires { IsRising row.now.items }
    ensures { result ≡ true → IsBehind deadline row.now.items }
{
    match row.back() {
        Some(last) => *last <= deadline,
        None => true,
    }
}

#[inline(always)]
fn push(
    row: &mut VecDeque<Deadline>,
    moments: &Moments,
    deadline: Deadline,
) -> Result<(), AllocError>
    requires rising { IsRising row.old.items }
    requires behind { IsBehind deadline row.old.items }
    ensures ok { OnOk result (Extends (is_live moments.now) deadline row.old.items row.new.items) }
    ensures err { OnErr result (Thins (is_live moments.now) row.old.items row.new.items) }
{
    // Most of a long row was dropped: it makes room before it grows.
    if row.len() / 4 > moments.len() {
        thin(row, moments);
    }
    row.push_back(deadline)?;
    Ok(())
}

// Takes out what was dropped.
fn thin(row: &mut VecDeque<Deadline>, moments: &Moments)
    ensures { Thins (is_live moments.now) row.old.items row.new.items }
{
    row.retain(
        |deadline: &Deadline|
            ensures { result ≡ is_live moments.entry.now deadline.now }
        { stands(moments, *deadline) },
    );
}

// Whether the deadline's key is due at its moment.
#[inline(always)]
fn stands(moments: &Moments, deadline: Deadline) -> bool
    ensures { result ≡ is_live moments.now deadline }
{
    match moments.get(&deadline.key) {
        Some(due) => *due == deadline.due,
        None => false,
    }
}

// Takes a dropped deadline out where it is the first, and answers whether it was.
#[inline(always)]
fn leave(row: &mut VecDeque<Deadline>, deadline: Deadline) -> bool
    ensures keeps { (live : Deadline → Bool) → (live deadline ≡ true → ⊥)
        → KeepsLive live row.old.items row.new.items }
    ensures led { result ≡ false → (live : Deadline → Bool)
        → IsLed (λ d. (deadline ≡ d) ⊎ (live d ≡ true)) row.old.items
        → IsLed (λ d. live d ≡ true) row.new.items }
{
    if !begins_with(row, deadline) {
        return false;
    }
    row.pop_front();
    true
}

// Whether the deadline is the first of the row.
#[inline(always)]
fn begins_with(row: &VecDeque<Deadline>, deadline: Deadline) -> bool
    ensures yes { result ≡ true → deadline ≡ get_or row.now.items 0 deadline }
    ensures no { result ≡ false → (live : Deadline → Bool)
        → IsLed (λ d. (deadline ≡ d) ⊎ (live d ≡ true)) row.now.items
        → IsLed (λ d. live d ≡ true) row.now.items }
{
    match row.front() {
        Some(first) => *first == deadline,
        None => false,
    }
}

// Takes out what was dropped before the first that wasn't, where the first of the row has left.
#[inline(always)]
fn settle(row: &mut VecDeque<Deadline>, moments: &Moments, left: bool)
    ensures keeps { KeepsLive (is_live moments.now) row.old.items row.new.items }
    ensures led { (left ≡ false → IsLed (λ d. is_live moments.now d ≡ true) row.old.items)
        → IsLed (λ d. is_live moments.now d ≡ true) row.new.items }
{
    if left {
        drop_stale(row, moments);
    }
}

// Takes out what was dropped, up to the first that wasn't.
#[inline(never)]
fn drop_stale(row: &mut VecDeque<Deadline>, moments: &Moments)
    ensures keeps { KeepsLive (is_live moments.now) row.old.items row.new.items }
    ensures led { IsLed (λ d. is_live moments.now d ≡ true) row.new.items }
{
    while let Some(first) = row.front() {
        if stands(moments, *first) {
            return;
        }
        row.pop_front();
    }
}

// The tree's calls are functions of their own, so that a call on a row is short.
// Takes the deadline out of the tree, if it is there.
#[inline(always)]
fn drop_apart(rest: &mut BTreeSet<Deadline>, deadline: Deadline)
    ensures { LeavesTree deadline rest.old rest.new }
{
    if rest.is_empty() {
        return;
    }
    drop_held(rest, deadline);
}

// The same, where the tree has some.
#[inline(never)]
fn drop_held(rest: &mut BTreeSet<Deadline>, deadline: Deadline)
    ensures { LeavesTree deadline rest.old rest.new }
{
    rest.remove(&deadline);
}

// The one that comes first, or the only one.
#[inline(always)]
fn sooner<'a>(left: Option<&'a Deadline>, right: Option<&'a Deadline>) -> Option<&'a Deadline>
    ensures { option_copied result ≡ sooner_of (option_copied left.entry) (option_copied right.entry) }
{
    match (left, right) {
        (Some(left), Some(right)) => Some(if *left <= *right { left } else { right }),
        (Some(left), None) => Some(left),
        (None, right) => right,
    }
}
