//! The queue: the moments by their keys, and the deadlines in their order.
ghost use Rattle.std.specs.Prelude.{◌≡◌, false, MatchOption, OnOk, OnErr};
ghost use Rattle.std.specs.FinMap as map;
ghost use Rattle.timeout_queue.specs.Queue.{IsFirst};

use crate::by_number::{ByNumber, Moments};
use crate::key::{Deadline, Key};
use crate::rows::Rows;
use std::alloc::{AllocError, Global};
use std::marker::Model;

/// Deadlines: for each key that is in the queue, the moment at which it is due, in milliseconds.
#[derive(Drop)]
pub struct Queue {
    moments: Moments,
    rows: Rows,
}

impl Model for Queue {
    ghost use Rattle.std.specs.FinMap as map;
    ghost use Rattle.timeout_queue.specs.Queue.{Deadlines, deadlines_code};
    ghost use Rattle.timeout_queue.specs.Rows.{HaveLive, is_live};

    ghost Value = { Deadlines };

    ghost coded = { deadlines_code };

    ghost view = { λ q. map.from_entries q.moments.entries };

    ghost invariant = { λ q. HaveLive (is_live q.moments) q.rows };
}

impl Queue {
    /// An empty queue, which takes no memory.
    pub fn make(alloc: Global) -> Queue
        ensures { result ≡ map.empty }
    {
        Queue {
            moments: Moments::with_hasher(alloc, ByNumber::new()),
            rows: Rows::new(alloc),
        }
    }

    /// Whether the key is in the queue.
    pub fn has(&self, key: Key) -> bool
        ensures { result ≡ map.contains_key self.now key }
    {
        self.moments.contains_key(&key)
    }

    /// Puts in a key that isn't in the queue, due at a moment in milliseconds. `AllocError` is want of memory.
    #[inline]
    pub fn put(&mut self, key: Key, due: u64) -> Result<(), AllocError>
        requires absent { map.contains_key self.old key ≡ false }
        ensures ok { OnOk result (self.new ≡ map.insert self.old key due) }
        ensures err { OnErr result (self.new ≡ self.old) }
    {
        let deadline = Deadline { due, key };
        self.rows.add(&self.moments, deadline)?;
        match self.moments.insert(key, due) {
            Ok(_) => Ok(()),
            Err(failed) => {
                self.rows.remove(&self.moments, deadline);
                Err(AllocError::from(failed))
            }
        }
    }

    /// Takes the key out, and answers whether it was in the queue.
    #[inline]
    pub fn drop_key(&mut self, key: Key) -> bool
        ensures taken { self.new ≡ map.remove self.old key }
        ensures was_there { result ≡ map.contains_key self.old key }
    {
        match self.moments.remove(&key) {
            Some(due) => {
                self.rows.remove(&self.moments, Deadline { due, key });
                true
            }
            None => false,
        }
    }

    /// The first deadline, as its key and its moment: the least by moment, then by number, then by leg.
    #[inline]
    pub fn first_due(&self) -> Option<(Key, u64)>
        ensures { MatchOption result (self.now ≡ map.empty) (λ first. IsFirst self.now first.0 first.1) }
    {
        let first = self.rows.first()?;
        Some((first.key, first.due))
    }
}
