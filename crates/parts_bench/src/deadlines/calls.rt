//! Many calls, one after another.
ghost use Rattle.std.specs.Prelude.{ℕ, ◌≤◌, OnOk};
ghost use Rattle.parts_bench.specs.Numbers.{AreBelow};

use std::alloc::AllocError;
use timeout_queue::{Key, Queue};

// The moment at which a request is due: in no order.
fn moment(number: u64) -> u64 {
    number.wrapping_mul(0x9E37_79B9_7F4A_7C15) >> 24
}

/// Puts in a key of each of these numbers.
pub fn put_many(queue: &mut Queue, from: u64, to: u64) -> Result<(), AllocError>
    requires below { AreBelow from queue.old }
    requires order { from ≤ to }
    ensures { OnOk result (AreBelow to queue.new) }
{
    for number in from..to {
        queue.put(Key { number, leg: 0 }, moment(number))?;
    }
    Ok(())
}

/// Asks for the first so many times, and answers a number that each answer goes into.
pub fn ask_many(queue: &Queue, times: u64) -> u64 {
    let mut seen = 0u64;
    for _ in 0..times {
        if let Some((_, due)) = queue.first_due() {
            seen = seen.rotate_left(1) ^ due;
        }
    }
    seen
}

/// Takes out the keys of these numbers, and answers how many were there.
pub fn drop_many(queue: &mut Queue, from: u64, to: u64) -> u64
    ensures { (n : ℕ) → AreBelow n queue.old → AreBelow n queue.new }
{
    let mut dropped = 0u64;
    for number in from..to {
        if queue.drop_key(Key { number, leg: 0 }) {
            dropped = dropped.wrapping_add(1);
        }
    }
    dropped
}
