//! The legs that wait, and the first of them.
ghost use Rattle.std.specs.Prelude.{◌≡◌, true, MatchOption, OnOk, OnErr};
ghost use Rattle.std.specs.FinSet as set;
ghost use Rattle.std.specs.List.{slice_get};
ghost use Rattle.std.specs.Option.{option_copied};
ghost use Rattle.std.specs.BTreeSet as tree;
ghost use Rattle.timeout_queue.specs.Key.{key_cmp};
ghost use Rattle.leg_index.specs.Waiting.{WaitsFirst, IsRising, IsBehind, IsUptoAll, Leaves, LeavesTree, begins_with, lesser_of};

use std::alloc::{AllocError, Global};
use std::collections::{BTreeSet, VecDeque};
use std::marker::Model;
use timeout_queue::Key;

/// The legs that wait for an attempt.
///
/// Those of new requests come in the order of their numbers, and stand in a row. Where a leg would not fit behind the
/// row, as one that waits again, it is in a tree.
#[derive(Drop)]
pub struct Waiting {
    row: VecDeque<Key>,
    rest: BTreeSet<Key>,
}

impl Model for Waiting {
    ghost use Rattle.std.specs.Prelude.{◌++◌};
    ghost use Rattle.std.specs.FinSet as set;
    ghost use Rattle.leg_index.specs.Waiting.{Legs, legs_code, IsRising};

    ghost Value = { Legs };

    ghost coded = { legs_code };

    ghost view = { λ w. set.from_list (w.row.items ++ w.rest.keys) };

    ghost invariant = { λ w. IsRising w.row.items };
}

impl Waiting {
    /// No leg waits. It takes no memory.
    pub fn make(alloc: Global) -> Waiting
        ensures { result ≡ set.empty }
    {
        Waiting {
            row: VecDeque::new(alloc),
            rest: BTreeSet::new(alloc),
        }
    }

    /// The first leg that waits: that of the least number, and of one number the least leg.
    #[inline]
    pub fn first(&self) -> Option<Key>
        ensures { MatchOption result (self.now ≡ set.empty) (WaitsFirst self.now) }
    {
        match lesser(front(&self.row), self.rest.first()) {
            Some(first) => Some(*first),
            None => None,
        }
    }

    /// The leg waits from now on. `AllocError` is want of memory.
    #[inline(always)]
    pub fn put(&mut self, leg: Key) -> Result<(), AllocError>
        ensures ok { OnOk result (self.new ≡ set.insert self.old leg) }
        ensures err { OnErr result (self.new ≡ self.old) }
    {
        if fits(&self.row, leg) {
            self.row.push_back(leg)?;
            return Ok(());
        }
        put_apart(&mut self.rest, leg)
    }

    /// The leg, which is the first that waits, waits no longer. It takes no memory.
    #[inline]
    pub fn drop_first(&mut self, leg: Key)
        requires first { WaitsFirst self.old leg }
        ensures { self.new ≡ set.remove self.old leg }
    {
        drop_front(&mut self.row, leg);
        drop_apart(&mut self.rest, leg);
    }

    /// No leg waits any longer. It takes no memory.
    pub fn clear(&mut self)
        ensures { self.new ≡ set.empty }
    {
        self.row.clear();
        self.rest.clear();
    }
}

// Puts the leg into the tree. The tree's calls are functions of their own, so that a call on a row is short.
#[inline(never)]
fn put_apart(rest: &mut BTreeSet<Key>, leg: Key) -> Result<(), AllocError>
    ensures ok { OnOk result (tree.Updates key_cmp rest.old rest.new leg true) }
    ensures err { OnErr result (rest.new.keys ≡ rest.old.keys) }
{
    rest.insert(leg)?;
    Ok(())
}

// Takes the leg out of the tree, if it is there.
#[inline(always)]
fn drop_apart(rest: &mut BTreeSet<Key>, leg: Key)
    ensures { LeavesTree leg rest.old rest.new }
{
    if rest.is_empty() {
        return;
    }
    drop_held(rest, leg);
}

// The same, where the tree has some.
#[inline(never)]
fn drop_held(rest: &mut BTreeSet<Key>, leg: Key)
    ensures { LeavesTree leg rest.old rest.new }
{
    rest.remove(&leg);
}

// The first of the row.
#[inline(always)]
fn front(row: &VecDeque<Key>) -> Option<&Key>
    ensures { option_copied result ≡ slice_get row.now.items 0 }
{
    row.get(0)
}

// Takes the leg out of the row, in which none comes before it.
#[inline(always)]
fn drop_front(row: &mut VecDeque<Key>, leg: Key)
    requires rising { IsRising row.old.items }
    requires first { IsUptoAll leg row.old.items }
    ensures rising { IsRising row.new.items }
    ensures left { Leaves leg row.old.items row.new.items }
{
    if !begins_with(row, leg) {
        return;
    }
    row.pop_front();
}

// Whether the leg is the first of the row.
#[inline(always)]
fn begins_with(row: &VecDeque<Key>, leg: Key) -> bool
    ensures { result ≡ begins_with leg row.now.items }
{
    match row.front() {
        Some(first) => *first == leg,
        None => false,
    }
}

// Whether each leg of the row comes before this one.
#[inline(always)]
fn fits(row: &VecDeque<Key>, leg: Key) -> bool
    requires { IsRising row.now.items }
    ensures { result ≡ true → IsBehind leg row.now.items }
{
    match row.back() {
        Some(last) => *last < leg,
        None => true,
    }
}

// The one that comes first, or the only one.
#[inline(always)]
fn lesser<'a>(left: Option<&'a Key>, right: Option<&'a Key>) -> Option<&'a Key>
    ensures { option_copied result
        ≡ lesser_of (option_copied left.entry) (option_copied right.entry) }
{
    match (left, right) {
        (Some(left), Some(right)) => Some(if *left <= *right { left } else { right }),
        (Some(left), None) => Some(left),
        (None, right) => right,
    }
}
