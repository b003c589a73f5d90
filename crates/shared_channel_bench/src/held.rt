//! The same requests, where a thread makes the calls that it has at hand under one hold of the channel's lock.

ghost use Rattle.shared_channel.specs.Staying.{StaysSettled};

use crate::asking::{NONE, callback, query, reply_to};
use crate::backoff::Backoff;
use crate::place::{Attempt, attempt_of};
use chan_types::Spec;
use channel_model::Desk;
use completion_ticket::{Callback, Scripted};
use shared_channel::{HeldPlace, Place, deliver_some};
use std::alloc::Global;
use std::sync::Wait;
use std::time::Clock;

/// Asks a request with this callback.
fn asked<R: Wait>(held: &mut HeldPlace<'_, Scripted, R>, spec: Spec, callback: Callback<Scripted>)
    ensures { StaysSettled held.old held.new }
{
    let _accepted = held.accept(spec, callback).is_ok();
}

/// Asks one request.
#[tactic(auto, using(shared_channel::proofs::Theorems::stays_none))]
fn ask<R: Wait>(held: &mut HeldPlace<'_, Scripted, R>, alloc: Global)
    ensures { StaysSettled held.old held.new }
{
    match query(alloc) {
        Ok(spec) => asked(held, spec, callback(alloc)),
        Err(_) => {}
    }
}

/// Asks so many requests.
#[tactic(auto, using(shared_channel::proofs::Theorems::stays_more, shared_channel::proofs::Theorems::stays_none))]
fn ask_some<R: Wait>(held: &mut HeldPlace<'_, Scripted, R>, alloc: Global, count: u64)
    ensures { StaysSettled held.old held.new }
{
    for _ in 0..count {
        ask(held, alloc);
    }
}

/// Asks so many requests under one hold.
fn ask_at_once<'c, R: Wait>(
    place: Place<'c, Scripted, R>,
    alloc: Global,
    count: u64,
) -> Place<'c, Scripted, R>
    ensures { StaysSettled place.entry result }
{
    let mut held = place.hold();
    ask_some(&mut held, alloc, count);
    held.release()
}

/// Begins an attempt, where a leg waits.
fn begun<R: Wait>(held: &mut HeldPlace<'_, Scripted, R>) -> Option<Attempt>
    ensures { StaysSettled held.old held.new }
{
    attempt_of(held.start(1, 0, 0))
}

/// Takes in the reply to an attempt.
fn answered<R: Wait>(held: &mut HeldPlace<'_, Scripted, R>, attempt: Attempt, reply: &[u8])
    ensures { StaysSettled held.old held.new }
{
    let _landed = held.arrive(attempt.server, attempt.link, reply).is_ok();
}

/// Begins an attempt and takes in the reply to it: whether a leg was to be asked.
#[tactic(auto, using(shared_channel::proofs::Theorems::stays_more))]
fn reply<R: Wait>(held: &mut HeldPlace<'_, Scripted, R>) -> bool
    ensures { StaysSettled held.old held.new }
{
    match begun(held) {
        Some(attempt) => {
            answered(held, attempt, &reply_to(attempt.id));
            true
        }
        None => false,
    }
}

/// Replies to up to so many attempts, as long as a leg is to be asked. Answers how many those were.
#[tactic(auto, using(shared_channel::proofs::Theorems::stays_more, shared_channel::proofs::Theorems::stays_none))]
fn reply_some<R: Wait>(held: &mut HeldPlace<'_, Scripted, R>, most: u64) -> u64
    ensures { StaysSettled held.old held.new }
{
    for replied in 0..most {
        if !reply(held) {
            return replied;
        }
    }
    most
}

/// Replies to up to so many attempts under one hold.
fn reply_at_once<'c, R: Wait>(
    place: Place<'c, Scripted, R>,
    most: u64,
) -> (Place<'c, Scripted, R>, u64)
    ensures { StaysSettled place.entry result.0 }
{
    let mut held = place.hold();
    let replied = reply_some(&mut held, most);
    (held.release(), replied)
}

/// Replies to so many attempts, up to ten under one hold.
#[tactic(auto, using(shared_channel::proofs::Theorems::stays_more, shared_channel::proofs::Theorems::stays_none))]
pub fn reply_all_held<'c, R: Wait + Clock>(
    rt: &R,
    place: Place<'c, Scripted, R>,
    count: u64,
) -> Place<'c, Scripted, R>
    ensures { StaysSettled place.entry result }
{
    let mut place = place;
    let mut backoff = Backoff::new();
    let mut left = count;
    for _ in rt.forever() {
        if left == 0 {
            return place;
        }
        let (back, replied) = reply_at_once(place, left.min(10));
        place = back;
        backoff.look(rt, replied);
        left = left.saturating_sub(replied);
    }
    unreachable!()
}

/// Delivers up to so many ready requests, and answers how many those were: none for want of memory.
#[tactic(auto, using(shared_channel::proofs::Theorems::stays_deliveries, shared_channel::proofs::Theorems::stays_same))]
fn delivered<R: Wait>(place: &mut Place<'_, Scripted, R>, alloc: Global, most: u64) -> u64
    ensures { StaysSettled place.old place.new }
{
    match deliver_some(alloc, place, NONE, most) {
        Ok(called) => called.len() as u64,
        Err(_) => 0,
    }
}

/// Delivers so many requests.
#[tactic(auto, using(shared_channel::proofs::Theorems::stays_more, shared_channel::proofs::Theorems::stays_none))]
fn deliver_all<R: Wait + Clock>(
    rt: &R,
    place: &mut Place<'_, Scripted, R>,
    alloc: Global,
    count: u64,
)
    ensures { StaysSettled place.old place.new }
{
    let mut backoff = Backoff::new();
    let mut left = count;
    for _ in rt.forever() {
        if left == 0 {
            return;
        }
        let called = delivered(place, alloc, left);
        backoff.look(rt, called);
        left = left.saturating_sub(called);
    }
    unreachable!()
}

/// Asks ten requests, and delivers ten that others reply to.
#[tactic(auto, using(shared_channel::proofs::Theorems::stays_more))]
fn round_held<'c, R: Wait + Clock>(
    rt: &R,
    place: Place<'c, Scripted, R>,
    alloc: Global,
) -> Place<'c, Scripted, R>
    ensures { StaysSettled place.entry result }
{
    let mut place = ask_at_once(place, alloc, 10);
    deliver_all(rt, &mut place, alloc, 10);
    place
}

/// So many requests, in rounds of ten to which others reply.
#[tactic(auto, using(shared_channel::proofs::Theorems::stays_more, shared_channel::proofs::Theorems::stays_none))]
pub fn rounds_held<'c, R: Wait + Clock>(
    rt: &R,
    place: Place<'c, Scripted, R>,
    alloc: Global,
    count: u64,
) -> Place<'c, Scripted, R>
    ensures { StaysSettled place.entry result }
{
    let mut place = place;
    for _ in 0..count / 10 {
        place = round_held(rt, place, alloc);
    }
    place
}
