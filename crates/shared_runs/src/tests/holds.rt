//! Calls under one hold of the lock, and several deliveries in one call.

ghost use Rattle.std.specs.Prelude.{◌≡◌};
ghost use Rattle.shared_channel.specs.Staying.{StaysSettled};

use super::FOLLOW;
use super::calls::query;
use super::replies::{ADDRESS_REPLY, Attempt, attempt_of};
use chan_types::{NoMemory, Script, Spec};
use channel_model::Desk;
use completion_ticket::{Callback, Scripted};
use shared_channel::{HeldPlace, Place, deliver_some};
use std::alloc::Global;
use std::sync::Wait;

/// Asks a request with a callback that commands nothing.
fn asked<R: Wait>(held: &mut HeldPlace<'_, Scripted, R>, spec: Spec, callback: Callback<Scripted>)
    ensures { StaysSettled held.old held.new }
{
    let _accepted = held.accept(spec, callback).is_ok();
}

/// Asks for the addresses of IPv4 of `x.test.`
#[tactic(auto, using(shared_channel::proofs::Theorems::stays_none))]
fn ask<R: Wait>(held: &mut HeldPlace<'_, Scripted, R>, alloc: Global)
    ensures { StaysSettled held.old held.new }
{
    match query(alloc) {
        Ok(spec) => asked(held, spec, Callback::scripted(Script::blank(alloc, 7))),
        Err(_) => {}
    }
}

/// Asks so many requests.
#[tactic(auto, using(shared_channel::proofs::Theorems::stays_more, shared_channel::proofs::Theorems::stays_none))]
fn ask_some<R: Wait>(held: &mut HeldPlace<'_, Scripted, R>, alloc: Global, count: u64)
    ensures { StaysSettled held.old held.new }
{
    for _ in 0..count {
        ask(held, alloc);
    }
}

/// Begins an attempt, where a leg waits.
fn begun<R: Wait>(held: &mut HeldPlace<'_, Scripted, R>) -> Option<Attempt>
    ensures { StaysSettled held.old held.new }
{
    attempt_of(held.start(9, 0, 0))
}

/// Takes in the reply 192.0.2.1 to an attempt.
fn answered<R: Wait>(held: &mut HeldPlace<'_, Scripted, R>, attempt: Attempt)
    ensures { StaysSettled held.old held.new }
{
    let mut reply = ADDRESS_REPLY;
    let [high, low] = attempt.id.to_be_bytes();
    reply[0] = high;
    reply[1] = low;
    let _landed = held.arrive(attempt.server, attempt.link, &reply).is_ok();
}

/// Begins an attempt, where a leg waits, and takes in the reply to it.
#[tactic(auto, using(shared_channel::proofs::Theorems::stays_more))]
fn reply<R: Wait>(held: &mut HeldPlace<'_, Scripted, R>)
    ensures { StaysSettled held.old held.new }
{
    if let Some(attempt) = begun(held) {
        answered(held, attempt);
    }
}

/// Replies to so many attempts.
#[tactic(auto, using(shared_channel::proofs::Theorems::stays_more, shared_channel::proofs::Theorems::stays_none))]
fn reply_some<R: Wait>(held: &mut HeldPlace<'_, Scripted, R>, count: u64)
    ensures { StaysSettled held.old held.new }
{
    for _ in 0..count {
        reply(held);
    }
}

/// Asks so many requests, and replies to as many, under one hold.
#[tactic(auto, using(shared_channel::proofs::Theorems::stays_more))]
pub fn asked_at_once<'c, R: Wait>(
    place: Place<'c, Scripted, R>,
    alloc: Global,
    count: u64,
) -> Place<'c, Scripted, R>
    ensures { StaysSettled place.entry result }
{
    let mut held = place.hold();
    ask_some(&mut held, alloc, count);
    reply_some(&mut held, count);
    held.release()
}

/// Delivers up to so many ready requests: how many those were, or the largest number for want of memory.
#[tactic(auto, using(shared_channel::proofs::Theorems::stays_deliveries, shared_channel::proofs::Theorems::stays_same))]
pub fn delivered_some<R: Wait>(place: &mut Place<'_, Scripted, R>, alloc: Global, most: u64) -> u64
    ensures { StaysSettled place.old place.new }
{
    match deliver_some(alloc, place, FOLLOW, most) {
        Ok(called) => called.len() as u64,
        Err(NoMemory) => u64::MAX,
    }
}
