//! A bitmap of 65,536 flags, with two levels above it that tell where flags are set.
ghost use Rattle.std.specs.Prelude.{◌≡◌, ℕ, ◌<◌, ◌≤◌, length, true, false, IfOk};
ghost use Rattle.id_pool.specs.Bitmap.{flag, FindsFirst, Changes, AllSet};
ghost use Rattle.id_pool.specs.Levels.{AreLevels, AreUpper};

use crate::bitmap::{clear, first_bit, first_here, first_in, has, set};
use std::alloc::{AllocError, Global};

/// The flags, a flag for each word of them that isn't 0, and a bit for each word of those.
#[derive(Drop)]
pub(crate) struct Levels {
    flags: Vec<u64>,
    words: Vec<u64>,
    blocks: u64,
}

impl Levels {
    /// All flags are set.
    pub(crate) fn all_set(alloc: Global) -> Result<Levels, AllocError>
        ensures { IfOk result (λ l. AreLevels l × AllSet l.flags.items 65536) }
    {
        Ok(Levels {
            flags: vec![in alloc; u64::MAX; 1024]?,
            words: vec![in alloc; u64::MAX; 16]?,
            blocks: 0xffff,
        })
    }

    /// Whether the flag is set.
    #[inline(always)]
    pub(crate) fn has(&self, place: usize) -> bool
        requires levels { AreLevels self.now }
        requires within { place < 65536 }
        ensures { result ≡ flag self.now.flags.items place }
    {
        has(&self.flags, place)
    }

    /// The first flag that is set, from a place on.
    #[inline(always)]
    pub(crate) fn first_from(&self, from: usize) -> Option<usize>
        requires levels { AreLevels self.now }
        requires within { from < 65536 }
        ensures { FindsFirst (flag self.now.flags.items) from 65536 result }
    {
        if let Some(place) = first_here(&self.flags, from) {
            return Some(place);
        }
        let word = first_word(&self.words, self.blocks, from / 64 + 1)?;
        Some(first_in(&self.flags, word))
    }

    /// Sets the flag.
    #[inline(always)]
    pub(crate) fn set(&mut self, place: usize)
        requires levels { AreLevels self.old }
        requires within { place < 65536 }
        ensures levels { AreLevels self.new }
        ensures changes { Changes self.old.flags.items self.new.flags.items place true }
    {
        let word = place / 64;
        set(&mut self.flags, place);
        set(&mut self.words, word);
        self.blocks |= 1 << (word / 64);
    }

    /// Clears the flag.
    #[inline(always)]
    pub(crate) fn clear(&mut self, place: usize)
        requires levels { AreLevels self.old }
        requires within { place < 65536 }
        ensures levels { AreLevels self.new }
        ensures changes { Changes self.old.flags.items self.new.flags.items place false }
    {
        if clear(&mut self.flags, place) {
            self.blocks = without_word(&mut self.words, self.blocks, place / 64);
        }
    }
}

// The first word that isn't 0, from one on.
fn first_word(words: &[u64], blocks: u64, from: usize) -> Option<usize>
    requires upper { AreUpper blocks words.now }
    requires within { from ≤ 1024 }
    ensures { FindsFirst (flag words.now) from 1024 result }
{
    if from == 1024 {
        return None;
    }
    if let Some(word) = first_here(words, from) {
        return Some(word);
    }
    let block = first_bit(blocks, from / 64 + 1)?;
    Some(first_in(words, block))
}

// Clears the flag of a word that is 0 now, and answers the bits of the blocks.
fn without_word(words: &mut Vec<u64>, blocks: u64, word: usize) -> u64
    requires upper { AreUpper blocks words.old.items }
    requires within { word < 1024 }
    ensures upper { AreUpper result words.new.items }
    ensures changes { Changes words.old.items words.new.items word false }
{
    if clear(words, word) {
        blocks & !(1 << (word / 64))
    } else {
        blocks
    }
}
