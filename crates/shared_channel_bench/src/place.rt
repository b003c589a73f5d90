//! The same requests at a place of a channel that threads share. Each call stands in a function of its own, which tells
//! that it was work through the place, so that the channel may be finished.

ghost use Rattle.shared_channel.specs.Staying.{StaysSettled};

use crate::asking::{NONE, callback, query, reply_to};
use crate::backoff::Backoff;
use chan_types::{NoMemory, Spec};
use channel_model::{Begun, Desk};
use completion_ticket::{Callback, Scripted};
use shared_channel::{Place, deliver_one};
use std::alloc::Global;
use std::sync::Wait;
use std::time::Clock;

/// Asks a request with this callback.
fn asked<R: Wait>(place: &mut Place<'_, Scripted, R>, spec: Spec, callback: Callback<Scripted>)
    ensures { StaysSettled place.old place.new }
{
    let _accepted = place.accept(spec, callback).is_ok();
}

/// Asks one request.
#[tactic(auto, using(shared_channel::proofs::Theorems::stays_none))]
fn ask<R: Wait>(place: &mut Place<'_, Scripted, R>, alloc: Global)
    ensures { StaysSettled place.old place.new }
{
    match query(alloc) {
        Ok(spec) => asked(place, spec, callback(alloc)),
        Err(_) => {}
    }
}

/// Asks so many requests.
#[tactic(auto, using(shared_channel::proofs::Theorems::stays_more, shared_channel::proofs::Theorems::stays_none))]
fn ask_some<R: Wait>(place: &mut Place<'_, Scripted, R>, alloc: Global, count: u64)
    ensures { StaysSettled place.old place.new }
{
    for _ in 0..count {
        ask(place, alloc);
    }
}

/// An attempt that began: its server, its link and its identifier.
#[derive(Clone, Copy)]
pub struct Attempt {
    pub server: u32,
    pub link: u64,
    pub id: u16,
}

/// Begins an attempt, where a leg waits.
fn begun<R: Wait>(place: &mut Place<'_, Scripted, R>) -> Option<Attempt>
    ensures { StaysSettled place.old place.new }
{
    attempt_of(place.start(1, 0, 0))
}

/// What began, if something did.
pub fn attempt_of(begun: Result<Begun, NoMemory>) -> Option<Attempt> {
    match begun {
        Ok(
            Begun::Started {
                server,
                link,
                id,
                ..
            },
        ) => Some(Attempt { server, link, id }),
        Ok(Begun::Idle) | Ok(Begun::NoId) | Err(_) => None,
    }
}

/// Takes in the reply to an attempt.
fn answered<R: Wait>(place: &mut Place<'_, Scripted, R>, attempt: Attempt, reply: &[u8])
    ensures { StaysSettled place.old place.new }
{
    let _landed = place.arrive(attempt.server, attempt.link, reply).is_ok();
}

/// Begins an attempt and takes in the reply to it, or backs off where no leg is to be asked. Answers how many those were.
#[tactic(auto, using(shared_channel::proofs::Theorems::stays_more))]
fn reply<R: Wait + Clock>(rt: &R, place: &mut Place<'_, Scripted, R>, backoff: &mut Backoff) -> u64
    ensures { StaysSettled place.old place.new }
{
    match begun(place) {
        Some(attempt) => {
            answered(place, attempt, &reply_to(attempt.id));
            backoff.reset();
            1
        }
        None => {
            backoff.snooze(rt);
            0
        }
    }
}

/// Replies to so many attempts.
#[tactic(auto, using(shared_channel::proofs::Theorems::stays_more, shared_channel::proofs::Theorems::stays_none))]
pub fn reply_all<R: Wait + Clock>(rt: &R, place: &mut Place<'_, Scripted, R>, count: u64)
    ensures { StaysSettled place.old place.new }
{
    let mut backoff = Backoff::new();
    let mut left = count;
    for _ in rt.forever() {
        if left == 0 {
            return;
        }
        left = left.saturating_sub(reply(rt, place, &mut backoff));
    }
    unreachable!()
}

/// Delivers the first ready request: whether there was one.
#[tactic(auto, using(shared_channel::proofs::Theorems::stays_delivery))]
fn delivered<R: Wait>(place: &mut Place<'_, Scripted, R>) -> bool
    ensures { StaysSettled place.old place.new }
{
    deliver_one(place, NONE).is_some()
}

/// Delivers the first ready request, or backs off where none is ready. Answers how many that were.
fn deliver<R: Wait + Clock>(
    rt: &R,
    place: &mut Place<'_, Scripted, R>,
    backoff: &mut Backoff,
) -> u64
    ensures { StaysSettled place.old place.new }
{
    if delivered(place) {
        backoff.reset();
        1
    } else {
        backoff.snooze(rt);
        0
    }
}

/// Delivers so many requests.
#[tactic(auto, using(shared_channel::proofs::Theorems::stays_more, shared_channel::proofs::Theorems::stays_none))]
fn deliver_all<R: Wait + Clock>(rt: &R, place: &mut Place<'_, Scripted, R>, count: u64)
    ensures { StaysSettled place.old place.new }
{
    let mut backoff = Backoff::new();
    let mut left = count;
    for _ in rt.forever() {
        if left == 0 {
            return;
        }
        left = left.saturating_sub(deliver(rt, place, &mut backoff));
    }
    unreachable!()
}

/// Asks ten requests, and delivers ten that others reply to.
#[tactic(auto, using(shared_channel::proofs::Theorems::stays_more))]
fn round<R: Wait + Clock>(rt: &R, place: &mut Place<'_, Scripted, R>, alloc: Global)
    ensures { StaysSettled place.old place.new }
{
    ask_some(place, alloc, 10);
    deliver_all(rt, place, 10);
}

/// So many requests, in rounds of ten to which others reply.
#[tactic(auto, using(shared_channel::proofs::Theorems::stays_more, shared_channel::proofs::Theorems::stays_none))]
pub fn rounds<R: Wait + Clock>(
    rt: &R,
    place: &mut Place<'_, Scripted, R>,
    alloc: Global,
    count: u64,
)
    ensures { StaysSettled place.old place.new }
{
    for _ in 0..count / 10 {
        round(rt, place, alloc);
    }
}

/// Asks ten requests, replies to them, and delivers them.
#[tactic(auto, using(shared_channel::proofs::Theorems::stays_more))]
fn whole_round<R: Wait + Clock>(rt: &R, place: &mut Place<'_, Scripted, R>, alloc: Global)
    ensures { StaysSettled place.old place.new }
{
    ask_some(place, alloc, 10);
    reply_all(rt, place, 10);
    deliver_all(rt, place, 10);
}

/// So many requests, in rounds of ten.
#[tactic(auto, using(shared_channel::proofs::Theorems::stays_more, shared_channel::proofs::Theorems::stays_none))]
pub fn whole_rounds<R: Wait + Clock>(
    rt: &R,
    place: &mut Place<'_, Scripted, R>,
    alloc: Global,
    count: u64,
)
    ensures { StaysSettled place.old place.new }
{
    for _ in 0..count / 10 {
        whole_round(rt, place, alloc);
    }
}
