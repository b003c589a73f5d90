//! The part of a run that brings its requests to their end: turns, and between them what completes is delivered.

ghost use Rattle.std.specs.Prelude.{◌≡◌, ◌≢◌, ◌≤◌, ◌∷◌, All, IfSome, None, Ok, [], length, map};
ghost use Rattle.net_world.specs.Cause.{Rose};
ghost use Rattle.owner_session.specs.Delivering.{IsIdle};
ghost use Rattle.owner_session.specs.Session.{AcceptsAll, CountsPending, IsSession, MakesTurns, SetsLater, IsNew};
ghost use Rattle.owner_session.specs.Asked.{askings};
ghost use Rattle.owner_session.specs.Returning.{AsksWith, HaveAsked, KeepsPlaces};

use crate::caller::Caller;
use crate::delivering::deliver_all;
use crate::places::Places;
use chan_types::Spec;
use channel_model::{Desk, Refused, SetFault};
use channel_table::Alone;
use completion_ticket::{Callback, Done};
use event_runner::{Paused, Runner};
use item_list::NoMemory;
use net_addr::ServerList;
use net_world::World;
use resolv_options::Options;
use run_end::LoopEnd;
use std::alloc::Global;
use std::collections::VecDeque;

/// Makes a runner, accepts the requests, each with the next body, and makes turns with pauses between them until nothing is
/// pending: at most so many. What has completed is delivered before the first turn and behind each; the later servers are
/// set right behind the first.
pub(crate) fn session<B: Done + Drop, W: World>(
    alloc: Global,
    options: &Options,
    specs: Vec<Spec>,
    later: Option<ServerList>,
    caller: &mut Caller<B>,
    world: &mut W,
    turns: u64,
) -> Result<LoopEnd, NoMemory>
    requires new { IsNew caller.old }
    requires options { options.now ≡ caller.old.alone.setting.options }
    requires fresh { All (λ body. B.told body ≡ None) caller.old.places.rest }
    requires unasked { caller.old.places.back ≡ [] }
    requires servers { IfSome later (λ later. (1 ≤ length later) × (length later ≤ 8)) }
    ensures session { IsSession (askings specs.items (map B.plan caller.old.places.rest)) later turns result
        caller.old caller.new (W.log world.old) (W.log world.new) }
    ensures places { HaveAsked B.name B.told B.refusal caller.old.places.rest
        caller.new.alone caller.new.places }
    ensures waits { W.wait_faults world.old ≤ W.wait_faults world.new }
    ensures origin { W.origin world.new ≡ W.origin world.old }
    ensures wait_fault { result ≡ Ok LoopEnd.WaitFault
        → Rose (W.wait_faults world.old) (W.wait_faults world.new) }
{
    let mut runner = Runner::make(alloc, world, options)?;
    accept_all(&mut caller.alone, &mut caller.places, specs)?;
    make_turns(caller, later, &mut runner, world, turns)
}

/// Accepts a request for each spec that has a body, in order, each with the callback of the next body.
fn accept_all<B: Done + Drop>(
    alone: &mut Alone<Callback<B>>,
    places: &mut Places<B>,
    specs: Vec<Spec>,
) -> Result<(), NoMemory>
    requires voice { alone.old.voice ≡ 0 }
    requires empty { alone.old.seen ≡ [] }
    requires fresh { All (λ body. B.told body ≡ None) places.old.rest }
    requires unasked { places.old.back ≡ [] }
    ensures accepts { AcceptsAll (askings specs.items (map B.plan places.old.rest)) result alone.old alone.new }
    ensures places { HaveAsked B.name B.told B.refusal places.old.rest alone.new places.new }
{
    let mut specs = VecDeque::from(specs);
    while let Some(spec) = specs.pop_front() {
        let Some(body) = places.next()? else {
            return Ok(());
        };
        accept(alone, places, spec, body)?;
    }
    Ok(())
}

/// Accepts a request with the callback of this body, which was taken out last. Where the request is refused the body is told
/// so, and given back.
fn accept<B: Done + Drop>(
    alone: &mut Alone<Callback<B>>,
    places: &mut Places<B>,
    spec: Spec,
    body: B,
) -> Result<(), NoMemory>
    requires voice { alone.old.voice ≡ 0 }
    requires fresh { B.told body ≡ None }
    requires place { places.old.back ≢ [] }
    ensures accepts { AcceptsAll (askings (spec ∷ []) (B.plan body ∷ [])) result alone.old alone.new }
    ensures places { AsksWith B.name B.told B.refusal spec (B.plan body) body result
        alone.old alone.new places.old places.new }
{
    let Err(Refused { why, token, .. }) = alone.accept(spec, Callback::of(body)) else {
        return Ok(());
    };
    if let Some(body) = token.refuse(why) {
        places.give_back(body);
    }
    Err(NoMemory)
}

/// Makes turns, and pauses between them, until nothing is pending: at most so many.
fn make_turns<B: Done + Drop, W: World>(
    caller: &mut Caller<B>,
    mut later: Option<ServerList>,
    runner: &mut Runner,
    world: &mut W,
    turns: u64,
) -> Result<LoopEnd, NoMemory>
    requires idle { IsIdle caller.old }
    requires servers { IfSome later (λ later. (1 ≤ length later) × (length later ≤ 8)) }
    ensures turns { MakesTurns later turns result caller.old caller.new runner.old
        (W.log world.old) (W.log world.new) }
    ensures places { KeepsPlaces B.name B.told caller.old caller.new }
    ensures waits { W.wait_faults world.old ≤ W.wait_faults world.new }
    ensures origin { W.origin world.new ≡ W.origin world.old }
    ensures wait_fault { result ≡ Ok LoopEnd.WaitFault
        → Rose (W.wait_faults world.old) (W.wait_faults world.new) }
{
    deliver_all(caller);
    for _ in 0..turns {
        if count_pending(&mut caller.alone) == 0 {
            return Ok(LoopEnd::Completed);
        }
        runner.turn(&mut caller.alone, world)?;
        set_later(&mut caller.alone, &mut later)?;
        deliver_all(caller);
        if let Paused::WaitFault = runner.pause(&mut caller.alone, world, u64::MAX)? {
            return Ok(LoopEnd::WaitFault);
        }
    }
    if count_pending(&mut caller.alone) == 0 {
        Ok(LoopEnd::Completed)
    } else {
        Ok(LoopEnd::Stalled)
    }
}

/// Sets the servers that are left to be set, if there are some: then none are left. A channel that a callback has destroyed
/// keeps those that it had.
fn set_later<B: Done + Drop>(
    alone: &mut Alone<Callback<B>>,
    later: &mut Option<ServerList>,
) -> Result<(), NoMemory>
    requires servers { IfSome later.old (λ later. (1 ≤ length later) × (length later ≤ 8)) }
    ensures sets { SetsLater later.old result alone.old alone.new }
    ensures left { later.new ≡ None }
{
    let Some(servers) = later.take() else {
        return Ok(());
    };
    match alone.set_servers(servers.as_slice()) {
        Ok(_) => Ok(()),
        Err(SetFault::Closed) => Ok(()),
        // Of 2^32 keys at most 16 are given, so they are never used up.
        Err(SetFault::Full) => Err(NoMemory),
        Err(SetFault::NoMemory) => Err(NoMemory),
    }
}

/// How many requests are pending.
fn count_pending<B: Done + Drop>(alone: &mut Alone<Callback<B>>) -> u64
    ensures { CountsPending result alone.old alone.new }
{
    alone.counts().pending
}
