//! The calls of a place that a runner makes besides its attempts and their replies, each in a function of its own.

ghost use Rattle.shared_channel.specs.Staying.{StaysSettled};

use chan_types::NoMemory;
use channel_model::{Counts, Desk, Lapse};
use completion_ticket::Scripted;
use shared_channel::Place;
use std::sync::Wait;

/// Lets the attempt that is due first expire, if it is due at this moment.
pub fn expired<R: Wait>(place: &mut Place<'_, Scripted, R>, at: u64) -> u64
    ensures { StaysSettled place.old place.new }
{
    number_expired(place.expire(at))
}

/// The number of the request whose attempt expired, 0 where none was due, or 15 for want of memory.
fn number_expired(reply: Result<Lapse, NoMemory>) -> u64 {
    match reply {
        Ok(Lapse::Expired { number, .. }) => number,
        Ok(Lapse::NotDue) => 0,
        Err(_) => 15,
    }
}

/// Fails the attempts on this server over UDP: how many there were, or 15 for want of memory.
pub fn failed<R: Wait>(place: &mut Place<'_, Scripted, R>, server: u32) -> u64
    ensures { StaysSettled place.old place.new }
{
    place.fault(server, 0, 0).unwrap_or(15)
}

/// When the next attempt is due, or 0.
pub fn due<R: Wait>(place: &mut Place<'_, Scripted, R>) -> u64
    ensures { StaysSettled place.old place.new }
{
    place.next_due().unwrap_or(0)
}

/// How many requests are pending and ready, and how many legs wait and are in flight, as four digits.
pub fn counted<R: Wait>(place: &mut Place<'_, Scripted, R>) -> u64
    ensures { StaysSettled place.old place.new }
{
    digits_of(place.counts())
}

/// Four counts below ten, as four digits.
fn digits_of(counts: Counts) -> u64 {
    let mut digits: u64 = 0;
    for count in [counts.pending, counts.ready, counts.waiting, counts.flying] {
        digits = digits.wrapping_mul(10).wrapping_add(count);
    }
    digits
}

/// Whether an attempt is in flight on this server over UDP.
pub fn is_busy<R: Wait>(place: &mut Place<'_, Scripted, R>, server: u32) -> bool
    ensures { StaysSettled place.old place.new }
{
    place.link_busy(server, 0)
}
