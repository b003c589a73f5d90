//! How keys are hashed: in the order of their numbers, two of them at one place, so that requests that end in much the
//! order in which they came touch memory in that order.
ghost use Rattle.timeout_queue.specs.Hashing.{place_of, word_of};

use crate::key::Key;
use std::collections::HashMap;
use std::hash::{BuildHasher, Hasher};

/// The moments of the keys.
pub(crate) type Moments = HashMap<Key, u64, ByNumber>;

/// A multiplier whose products differ in their highest bits (2^64 by the golden ratio).
const MULTIPLIER: u64 = 0x9e37_79b9_7f4a_7c15;

/// A hasher that keeps the last word that it was fed.
#[derive(Clone, Copy)]
pub(crate) struct ByNumber {
    word: u64,
}

impl ByNumber {
    /// One that was fed nothing.
    #[inline(always)]
    pub(crate) fn new() -> ByNumber {
        ByNumber { word: 0 }
    }
}

impl Hasher for ByNumber {
    ghost write = { λ h bytes. record { word = word_of h.word bytes } };

    ghost finish = { λ h. place_of h.word };

    // A map folds the two halves. Its low bits, those of half the number, are the place of a group of twelve keys, and
    // the eight highest tell apart what has the same place.
    #[inline(always)]
    fn finish(&self) -> u64 {
        (self.word >> 9) ^ (self.word.wrapping_mul(MULTIPLIER) & 0xff00_0000_0000_0000)
    }

    #[inline(always)]
    fn write(&mut self, bytes: &[u8]) {
        if let Some(word) = bytes.as_array::<8>() {
            self.word = u64::from_le_bytes(*word);
        }
    }
}

impl BuildHasher for ByNumber {
    type Hasher = ByNumber;

    ghost build_hasher = { λ fresh. fresh };

    #[inline(always)]
    fn build_hasher(&self) -> ByNumber {
        *self
    }
}
