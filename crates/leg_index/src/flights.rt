//! The legs in flight, by the identifiers of their attempts.
ghost use Rattle.std.specs.Prelude.{◌≡◌, IfOk, None, OnOk, OnErr, MatchOption};
ghost use Rattle.std.specs.FinMap as map;
ghost use Rattle.id_pool.specs.Identifiers.{AllUsed, IsFirstFree};
ghost use Rattle.leg_index.specs.Flights.{StandOnce, Gains, Loses, SameLegs, leg_by_id};

use crate::fresh::{Fresh, drop_fresh, find_fresh, front_leg};
use id_pool::IdPool;
use std::alloc::{AllocError, Global};
use std::collections::{HashMap, VecDeque};
use std::marker::Model;
use timeout_queue::Key;

/// Legs in flight: for each identifier that an attempt has, the leg whose attempt it is.
///
/// Replies mostly come in the order of their queries, so an attempt isn't put into the map before one ends that isn't the
/// first, or `index_all` is called. The map has room for all of them, so that no end needs memory.
#[derive(Drop)]
pub struct Flights {
    fresh: VecDeque<Fresh>,
    legs: HashMap<u16, Key>,
    pool: IdPool,
}

impl Model for Flights {
    ghost use Rattle.std.specs.Prelude.{◌++◌};
    ghost use Rattle.std.specs.FinMap as map;
    ghost use Rattle.leg_index.specs.Flights.{LegsById, legs_code, row_entries, IsFlightIndex};

    ghost Value = { LegsById };

    ghost coded = { legs_code };

    ghost view = { λ f. map.from_entries (row_entries f.fresh.items ++ f.legs.entries) };

    ghost invariant = { λ f. IsFlightIndex f.fresh.items f.legs f.pool };
}

impl Flights {
    /// No leg is in flight. `AllocError` is want of memory.
    pub fn make(alloc: Global) -> Result<Flights, AllocError>
        ensures { IfOk result (λ flights. flights ≡ map.empty) }
    {
        let pool = IdPool::make(alloc)?;
        Ok(Flights {
            fresh: VecDeque::new(alloc),
            legs: HashMap::new(alloc),
            pool,
        })
    }

    /// The leg whose attempt has this identifier. For another than the first of the attempts that aren't in the map, each
    /// of these may be looked at: where many are looked for, call `index_all` before.
    #[inline]
    pub fn leg(&self, id: u16) -> Option<Key>
        ensures { result ≡ map.get self.now id }
    {
        if let Some(leg) = front_leg(&self.fresh, id) {
            return Some(leg);
        }
        if !self.pool.is_used(id) {
            return None;
        }
        find_apart(&self.fresh, &self.legs, id)
    }

    /// Puts all attempts into the map, so that `leg` finds each of them there. Where memory is wanting, some are left out
    /// of it, and found as before.
    #[inline(never)]
    pub fn index_all(&mut self)
        ensures { self.new ≡ self.old }
    {
        settle(&mut self.fresh, &mut self.legs);
    }

    /// The first identifier from a random word upwards, modulo 65,536, that no attempt has.
    #[inline]
    pub fn first_free(&self, word: u16) -> Option<u16>
        ensures { MatchOption result (AllUsed (map.contains_key self.now))
            (IsFirstFree (map.contains_key self.now) word) }
    {
        self.pool.first_free(word)
    }

    /// An attempt of the leg has this identifier from now on. `AllocError` is want of memory.
    #[inline]
    pub fn begin(&mut self, id: u16, leg: Key) -> Result<(), AllocError>
        ensures ok { OnOk result (self.new ≡ map.insert self.old id leg) }
        ensures err { OnErr result (self.new ≡ self.old) }
    {
        if self.pool.is_used(id) {
            return begin_again(&mut self.fresh, &mut self.legs, id, leg);
        }
        add_fresh(&mut self.fresh, &mut self.legs, Fresh { id, leg })?;
        self.pool.take(id);
        Ok(())
    }

    /// No attempt has this identifier any longer. Answers whose attempt had it. It takes no memory.
    #[inline]
    pub fn end(&mut self, id: u16) -> Option<Key>
        ensures ended { self.new ≡ map.remove self.old id }
        ensures leg { result ≡ map.get self.old id }
    {
        if !self.pool.give_back(id) {
            return None;
        }
        if let Some(leg) = front_leg(&self.fresh, id) {
            self.fresh.pop_front();
            return Some(leg);
        }
        end_apart(&mut self.fresh, &mut self.legs, id)
    }
}

// The leg of an attempt that isn't the first. What isn't asked of the first is in functions of its own, so that a call
// for it is short.
#[inline(never)]
fn find_apart(fresh: &VecDeque<Fresh>, legs: &HashMap<u16, Key>, id: u16) -> Option<Key>
    requires { StandOnce fresh.now.items legs.now }
    ensures { result ≡ leg_by_id fresh.now.items legs.now id }
{
    match legs.get(&id) {
        Some(leg) => Some(*leg),
        None => find_fresh(fresh, id),
    }
}

// Adds an attempt behind those that aren't in the map yet. The map then has room for each of them.
#[inline(always)]
fn add_fresh(
    fresh: &mut VecDeque<Fresh>,
    legs: &mut HashMap<u16, Key>,
    attempt: Fresh,
) -> Result<(), AllocError>
    requires once { StandOnce fresh.old.items legs.old }
    requires free { leg_by_id fresh.old.items legs.old attempt.id ≡ None }
    ensures once { StandOnce fresh.new.items legs.new }
    ensures ok { OnOk result (Gains attempt.id attempt.leg (leg_by_id fresh.old.items legs.old)
        (leg_by_id fresh.new.items legs.new)) }
    ensures err { OnErr result (SameLegs (leg_by_id fresh.old.items legs.old)
        (leg_by_id fresh.new.items legs.new)) }
{
    legs.reserve(fresh.len().saturating_add(1))?;
    fresh.push_back(attempt)?;
    Ok(())
}

// An attempt of the leg has the identifier, in place of the one that may have it.
#[inline(never)]
fn begin_again(
    fresh: &mut VecDeque<Fresh>,
    legs: &mut HashMap<u16, Key>,
    id: u16,
    leg: Key,
) -> Result<(), AllocError>
    requires { StandOnce fresh.old.items legs.old }
    ensures once { StandOnce fresh.new.items legs.new }
    ensures ok { OnOk result (Gains id leg (leg_by_id fresh.old.items legs.old)
        (leg_by_id fresh.new.items legs.new)) }
    ensures err { OnErr result (SameLegs (leg_by_id fresh.old.items legs.old)
        (leg_by_id fresh.new.items legs.new)) }
{
    legs.insert(id, leg)?;
    drop_fresh(fresh, id);
    Ok(())
}

// Ends an attempt that isn't the first, and answers whose it was.
#[inline(never)]
fn end_apart(fresh: &mut VecDeque<Fresh>, legs: &mut HashMap<u16, Key>, id: u16) -> Option<Key>
    requires { StandOnce fresh.old.items legs.old }
    ensures once { StandOnce fresh.new.items legs.new }
    ensures ended { Loses id (leg_by_id fresh.old.items legs.old) (leg_by_id fresh.new.items legs.new) }
    ensures leg { result ≡ leg_by_id fresh.old.items legs.old id }
{
    if let Some(leg) = legs.remove(&id) {
        return Some(leg);
    }
    settle(fresh, legs);
    take_out(fresh, legs, id)
}

// Takes the attempt out of the map or, where it isn't there, out of those that aren't in the map yet.
fn take_out(fresh: &mut VecDeque<Fresh>, legs: &mut HashMap<u16, Key>, id: u16) -> Option<Key>
    requires { StandOnce fresh.old.items legs.old }
    ensures once { StandOnce fresh.new.items legs.new }
    ensures ended { Loses id (leg_by_id fresh.old.items legs.old) (leg_by_id fresh.new.items legs.new) }
    ensures leg { result ≡ leg_by_id fresh.old.items legs.old id }
{
    match legs.remove(&id) {
        Some(leg) => Some(leg),
        None => drop_fresh(fresh, id),
    }
}

// Puts the attempts into the map, from the first on, as far as memory is found.
fn settle(fresh: &mut VecDeque<Fresh>, legs: &mut HashMap<u16, Key>)
    requires { StandOnce fresh.old.items legs.old }
    ensures once { StandOnce fresh.new.items legs.new }
    ensures same { SameLegs (leg_by_id fresh.old.items legs.old) (leg_by_id fresh.new.items legs.new) }
{
    for _ in 0..fresh.len() {
        if !settle_first(fresh, legs) {
            return;
        }
    }
}

// Puts the first attempt into the map. Answers whether there was one, and memory for it.
fn settle_first(fresh: &mut VecDeque<Fresh>, legs: &mut HashMap<u16, Key>) -> bool
    requires { StandOnce fresh.old.items legs.old }
    ensures once { StandOnce fresh.new.items legs.new }
    ensures same { SameLegs (leg_by_id fresh.old.items legs.old) (leg_by_id fresh.new.items legs.new) }
{
    let Some(first) = fresh.front() else {
        return false;
    };
    let first = *first;
    if legs.insert(first.id, first.leg).is_err() {
        return false;
    }
    fresh.pop_front();
    true
}
