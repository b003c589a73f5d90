//! What a deadline belongs to, and the order of deadlines.
use std::hash::{Hash, Hasher};

/// One question of a request.
#[derive(Clone, Copy, Debug, PartialEq, Eq, PartialOrd, Ord)]
pub struct Key {
    /// The request's number.
    pub number: u64,
    /// Which of the request's questions.
    pub leg: u8,
}

// Number and leg in one word, so that a look-up hashes once. Numbers count up from 0 and stay below 2^56.
impl Hash for Key {
    ghost use Rattle.std.specs.Prelude.{◌+◌, ◌*◌, ◌%◌, ◌^◌};
    ghost use Rattle.std.specs.Hash as fed;
    ghost use borrow.Author.Rules.{rules};

    ghost hash_input = { λ k. fed.u64 ((k.number * 256 + k.leg) % 2 ^ 64) };

    ghost respects_eq = { Prim.search rules };

    #[inline(always)]
    fn hash<H: Hasher>(&self, state: &mut H) {
        let word = self
            .number
            .wrapping_mul(256)
            .wrapping_add(u64::from(self.leg));
        state.write_u64(word);
    }
}

// The order of the fields is that of deadlines: by moment, then by number, then by leg.
#[derive(Clone, Copy, PartialEq, Eq, PartialOrd, Ord)]
pub(crate) struct Deadline {
    pub(crate) due: u64,
    pub(crate) key: Key,
}
