//! The calls of a channel: moments rise, and most keys leave before they are due.
ghost use Rattle.std.specs.Prelude.{ℕ, ◌+◌, OnOk};
ghost use Rattle.parts_bench.specs.Numbers.{AreBelow};

use std::alloc::{AllocError, Global};
use timeout_queue::{Key, Queue};

/// Takes so many steps, in which about so many keys are in the queue.
pub fn run(alloc: Global, keys: u64, steps: u64) -> Result<bool, AllocError> {
    let mut queue = Queue::make(alloc);
    for number in 0..steps {
        step(&mut queue, number, keys)?;
    }
    Ok(queue.first_due().is_some())
}

/// A request is sent, the first deadline is asked for and taken out where it is due, and another request is answered.
fn step(queue: &mut Queue, number: u64, keys: u64) -> Result<(), AllocError>
    requires { AreBelow number queue.old }
    ensures { OnOk result (AreBelow (number + 1) queue.new) }
{
    let due = number.saturating_add(keys.saturating_mul(2));
    queue.put(Key { number, leg: 0 }, due)?;
    drop_due(queue, number);
    if let Some(oldest) = number.checked_sub(keys) {
        drop_answered(queue, oldest);
    }
    Ok(())
}

/// Takes out the first key where it is due.
fn drop_due(queue: &mut Queue, now: u64)
    ensures { (n : ℕ) → AreBelow n queue.old → AreBelow n queue.new }
{
    if let Some((key, due)) = queue.first_due() {
        if due <= now {
            queue.drop_key(key);
        }
    }
}

/// Takes out the key of a reply. They come in another order than the requests, and one of 64 never comes.
fn drop_answered(queue: &mut Queue, oldest: u64)
    ensures { (n : ℕ) → AreBelow n queue.old → AreBelow n queue.new }
{
    let number = oldest ^ 21;
    if number % 64 != 0 {
        queue.drop_key(Key { number, leg: 0 });
    }
}
