//! The calls of a channel: legs wait, fly and end in the order of their requests.
use leg_index::{Flights, Waiting};
use std::alloc::{AllocError, Global};
use std::collections::VecDeque;
use timeout_queue::Key;

// The next of a row of numbers in no order, and its upper half.
fn scattered(seed: u32) -> (u32, u16) {
    let next = seed.wrapping_mul(1_664_525).wrapping_add(1_013_904_223);
    (next, (next >> 16) as u16)
}

/// Takes so many steps, in which about so many legs are in flight, and answers how many had ended.
pub fn run(alloc: Global, legs: u32, steps: u32) -> Result<u32, AllocError> {
    let mut flights = Flights::make(alloc)?;
    let mut waiting = Waiting::make(alloc);
    let mut ids: VecDeque<u16> = VecDeque::new(alloc);
    let mut seed = 1u32;
    let mut ended = 0u32;
    for number in 0..steps {
        let (next, word) = scattered(seed);
        seed = next;
        waiting.put(Key {
            number: u64::from(number),
            leg: 0,
        })?;
        begin(&mut flights, &mut waiting, &mut ids, word)?;
        if ids.len() > legs as usize && end(&mut flights, &mut ids) {
            ended = ended.wrapping_add(1);
        }
    }
    Ok(ended)
}

/// The first leg that waits begins an attempt.
fn begin(
    flights: &mut Flights,
    waiting: &mut Waiting,
    ids: &mut VecDeque<u16>,
    word: u16,
) -> Result<(), AllocError> {
    let Some(leg) = waiting.first() else {
        return Ok(());
    };
    let Some(id) = flights.first_free(word) else {
        return Ok(());
    };
    flights.begin(id, leg)?;
    waiting.drop_first(leg);
    ids.push_back(id)?;
    Ok(())
}

/// The oldest attempt is looked up by its identifier, and ends. Answers whether it was in flight.
fn end(flights: &mut Flights, ids: &mut VecDeque<u16>) -> bool {
    let Some(id) = ids.pop_front() else {
        return false;
    };
    let was_there = flights.leg(id).is_some();
    flights.end(id);
    was_there
}
