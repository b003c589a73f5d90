//! A counter, as a state under the lock. Its operation leaves no entry.
ghost use Rattle.std.specs.Prelude.{◌≡◌, []};

use seat_lock::{Kept, Op};

/// How often it was raised.
#[derive(Drop)]
pub struct Counter {
    pub value: u64,
}

impl Kept for Counter {
    type Entry = u64;

    type Setting = ();

    ghost stands = { λ c. [] };

    ghost maker = { λ e. e };

    ghost setting = { λ c. tt };
}

/// Raises the counter by so much, and answers what it then is.
#[derive(Drop)]
pub struct Raise {
    pub by: u64,
}

impl Op<Counter> for Raise {
    type Reply = u64;

    ghost means = { λ op setting before seat reply after. after ≡ before };

    fn run(self, state: &mut Counter, _seat: u64) -> u64 {
        state.value = state.value.wrapping_add(self.by);
        state.value
    }
}
