//! Rounds of puts, of first_dues and of drops, each timed.
use super::calls::{ask_many, drop_many, put_many};
use std::alloc::Global;
use std::io;
use std::time::{Clock, Instant};
use timeout_queue::Queue;

/// What the calls of all rounds took together, in nanoseconds, and how many of each there were.
#[derive(Clone, Copy, Default)]
pub struct Spent {
    pub put: u128,
    pub first_due: u128,
    pub drop_key: u128,
    pub dropped: u64,
    pub seen: u64,
}

/// Fills a queue with so many keys. In each round a batch goes in, and the oldest go out.
pub fn run(
    clock: &impl Clock,
    alloc: Global,
    keys: u64,
    batch: u64,
    rounds: u64,
) -> io::Result<Spent> {
    let mut queue = Queue::make(alloc);
    put_many(&mut queue, 0, keys)?;
    let mut spent = Spent::default();
    let mut oldest = 0u64;
    let mut next = keys;
    for _ in 0..rounds {
        let Some(past_next) = next.checked_add(batch) else {
            break;
        };
        let past_oldest = oldest.saturating_add(batch);
        let start = Instant::now(clock)?;
        put_many(&mut queue, next, past_next)?;
        let put = Instant::now(clock)?;
        spent.seen ^= ask_many(&queue, batch);
        let asked = Instant::now(clock)?;
        let dropped = drop_many(&mut queue, oldest, past_oldest);
        let end = Instant::now(clock)?;
        spent.put = spent
            .put
            .saturating_add(put.duration_since(start).as_nanos());
        spent.first_due = spent
            .first_due
            .saturating_add(asked.duration_since(put).as_nanos());
        spent.drop_key = spent
            .drop_key
            .saturating_add(end.duration_since(asked).as_nanos());
        spent.dropped = spent.dropped.saturating_add(dropped);
        next = past_next;
        oldest = past_oldest;
    }
    Ok(spent)
}

/// The tenths of a nanosecond that one of so many calls took.
pub fn tenths(nanos: u128, calls: u64) -> u128 {
    nanos.saturating_mul(10) / u128::from(calls.max(1))
}
