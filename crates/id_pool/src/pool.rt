//! The pool: which identifiers are in use.
ghost use Rattle.std.specs.Prelude.{◌≡◌, not, IfOk, MatchOption};
ghost use Rattle.std.specs.FinSet as set;
ghost use Rattle.id_pool.specs.Identifiers.{AllUsed, IsFirstFree};

use crate::levels::Levels;
use std::alloc::{AllocError, Global};
use std::marker::Model;

/// The identifiers that are in use, of the 65,536 that there are.
#[derive(Drop)]
pub struct IdPool {
    free: Levels,
    used: u32,
}

impl Model for IdPool {
    ghost use Rattle.std.specs.FinSet as set;
    ghost use Rattle.std.specs.Coded.{coded_ℕ};
    ghost use Rattle.id_pool.specs.Identifiers.{Identifiers};
    ghost use Rattle.id_pool.specs.Levels.{ids_unset, IsKept};

    ghost Value = { Identifiers };

    ghost coded = { set.code coded_ℕ };

    ghost view = { λ p. ids_unset p.free.flags.items };

    ghost invariant = { λ p. IsKept p.free p.used };
}

impl IdPool {
    /// A pool in which no identifier is in use. `AllocError` is want of memory; no other call takes any.
    pub fn make(alloc: Global) -> Result<IdPool, AllocError>
        ensures { IfOk result (λ pool. pool ≡ set.empty) }
    {
        let free = Levels::all_set(alloc)?;
        Ok(IdPool { free, used: 0 })
    }

    /// Whether the identifier is in use.
    #[inline]
    pub fn is_used(&self, id: u16) -> bool
        ensures { result ≡ set.contains self.now id }
    {
        !self.free.has(usize::from(id))
    }

    /// How many identifiers are in use.
    #[inline]
    pub fn count(&self) -> u32
        ensures { result ≡ set.len self.now }
    {
        self.used
    }

    /// The first identifier from a random word upwards, modulo 65,536, that isn't in use.
    #[inline]
    pub fn first_free(&self, word: u16) -> Option<u16>
        ensures { MatchOption result (AllUsed (set.contains self.now))
            (IsFirstFree (set.contains self.now) word) }
    {
        let id = match self.free.first_from(usize::from(word)) {
            Some(id) => id,
            None => self.free.first_from(0)?,
        };
        Some(id as u16)
    }

    /// Takes the identifier into use, and answers whether it was free.
    #[inline]
    pub fn take(&mut self, id: u16) -> bool
        ensures taken { self.new ≡ set.insert self.old id }
        ensures was_free { result ≡ not (set.contains self.old id) }
    {
        if self.is_used(id) {
            return false;
        }
        self.free.clear(usize::from(id));
        self.used += 1;
        true
    }

    /// Gives the identifier back, and answers whether it was in use.
    #[inline]
    pub fn give_back(&mut self, id: u16) -> bool
        ensures given_back { self.new ≡ set.remove self.old id }
        ensures was_used { result ≡ set.contains self.old id }
    {
        if !self.is_used(id) {
            return false;
        }
        self.free.set(usize::from(id));
        self.used -= 1;
        true
    }
}
