//! The cache.

ghost use Rattle.std.specs.Borrow.{sem};
ghost use Rattle.std.specs.Prelude.{◌≡◌, ◌≤◌, ℕ, IfOk, OnOk, OnErr, option_copied};
ghost use Rattle.query_cache.specs.Cache.{new_cache, given, is_before, used, after_keep};
ghost use Rattle.lru.specs.LruCache.{IsValid};
ghost use Rattle.query_cache.specs.Key.{key_eq, IsKeyOf, AreByKey, shown};
ghost use Rattle.query_cache.specs.Lifetime.{may_be_kept};
ghost use Rattle.std.specs.Map.{lookup};

use crate::kept::Kept;
use crate::key::Key;
use crate::lifetime::lifetime;
use chan_types::Answer;
use dns_message::{NoMemory, Question};
use lru::LruCache;
use std::alloc::Global;
use std::marker::Model;
use std::num::NonZeroUsize;

/// Answers by their questions, each for as long as its records live. It keeps them for its own caller and serves nobody.
#[derive(Drop)]
pub struct QueryCache {
    alloc: Global,
    /// For how many seconds an answer is kept at most.
    most: u32,
    /// The question that is looked for: its room is used again, so that a look takes no memory.
    sought: Key,
    kept: LruCache<Key, Kept>,
}

impl Model for QueryCache {
    ghost use Rattle.query_cache.specs.Cache.{Cache};
    ghost use Rattle.query_cache.specs.Key.{AreByKey, shown};

    ghost Value = { Cache };

    ghost view = { λ cache. shown cache.most cache.kept };

    ghost invariant = { λ cache. AreByKey cache.kept.entries };
}

impl QueryCache {
    ghost use Rattle.query_cache.specs.Looked.{EndsLooked};

    /// A cache with room for so many answers, which keeps each for so many seconds at most.
    pub fn make(alloc: Global, room: u64, most: u32) -> Result<QueryCache, NoMemory>
        requires some { 1 ≤ room }
        requires few { room ≤ 65536 }
        requires most { 1 ≤ most }
        requires week { most ≤ 604800 }
        ensures { IfOk result (λ cache. cache ≡ new_cache room most) }
    {
        let room = NonZeroUsize::new(room as usize).unwrap();
        Ok(QueryCache {
            alloc,
            most,
            sought: Key::blank(alloc),
            kept: LruCache::sparse(alloc, room)?,
        })
    }

    /// Keeps the answer, in place of an older one of the question, and says whether it may be kept: where its status is
    /// Success, its message has answers, and none of them has the ttl 0. `at` is the moment in milliseconds. Where it
    /// may not be kept, and for want of memory, the answer is dropped and the cache is as before.
    pub fn keep(&mut self, asked: &Question, answer: Answer, at: u64) -> Result<bool, NoMemory>
        ensures says { IfOk result (λ kept. kept ≡ may_be_kept answer) }
        ensures after { self.new ≡ after_keep asked.now answer at result self.old }
    {
        let seconds = lifetime(self.alloc, &answer)?;
        if seconds == 0 {
            return Ok(false);
        }
        let key = Key::of(self.alloc, asked)?;
        let end = at as u128 + 1000 * seconds.min(self.most) as u128;
        let kept = Kept {
            asked: Question {
                name: asked.name.copy(self.alloc)?,
                kind: asked.kind,
                class: asked.class,
            },
            answer,
            end,
        };
        put(&mut self.kept, key, kept)?;
        Ok(true)
    }

    /// The question's answer, where it is kept and `at` is before its end; the entry then counts as used. `at` is the
    /// moment in milliseconds. Else, and for want of memory, the cache is as before.
    #[inline]
    pub fn look(&mut self, asked: &Question, at: u64) -> Result<Option<&Answer>, NoMemory>
        ensures gives { IfOk result (λ found. option_copied found ≡ given asked.now at self.old) }
        ensures* after { sem 𝓛 (EndsLooked self.entry asked.now result) }
    {
        self.sought.set(asked)?;
        if !is_good(&self.kept, &self.sought, at) {
            return Ok(None);
        }
        self.kept.promote(&self.sought);
        match self.kept.peek_mru() {
            Some((_, kept)) => Ok(Some(&kept.answer)),
            None => Ok(None),
        }
    }
}

/// Puts an entry in front, in place of an older one of its question, or of the last one where there is no room.
fn put(kept: &mut LruCache<Key, Kept>, key: Key, entry: Kept) -> Result<(), NoMemory>
    requires key { IsKeyOf entry.asked key }
    requires by_key { AreByKey kept.old.entries }
    ensures by_key { AreByKey kept.new.entries }
    ensures ok { OnOk result ((most : ℕ) → shown most kept.new ≡ used entry (shown most kept.old)) }
    ensures err { OnErr result (kept.new ≡ kept.old) }
{
    // A contract learns from `len` that the keys are apart, and no more than there is room for.
    let _count = kept.len();
    kept.put(key, entry)?;
    Ok(())
}

/// Whether an answer is kept by the key, and ends later.
#[inline(always)]
fn is_good(kept: &LruCache<Key, Kept>, key: &Key, at: u64) -> bool
    ensures good { result ≡ is_before at (lookup (key_eq key.now) kept.now.entries) }
    ensures valid { IsValid key_eq kept.now }
{
    let _count = kept.len();
    match kept.peek(key) {
        Some(found) => (at as u128) < found.end,
        None => false,
    }
}
