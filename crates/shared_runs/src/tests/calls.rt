//! The calls of a place that callers and callbacks make, each in a function of its own, which tells that it was work
//! through the place, so that the channel may be finished.

ghost use Rattle.std.specs.Prelude.{◌≤◌, length};
ghost use Rattle.shared_channel.specs.Staying.{StaysSettled};

use super::FOLLOW;
use chan_types::{Bytes, NoMemory, Script, Spec};
use channel_journal::ChannelJournal;
use channel_model::{Desk, Refused, SetFault};
use completion_ticket::{Callback, Called, Scripted};
use net_addr::ServerAddr;
use shared_channel::{Place, deliver_one};
use std::alloc::Global;
use std::sync::Wait;

/// Asks for the addresses of IPv4 of `x.test.`, with a callback that commands nothing.
#[tactic(auto, using(shared_channel::proofs::Theorems::stays_none))]
pub fn asked_query<R: Wait>(place: &mut Place<'_, Scripted, R>, alloc: Global) -> u64
    ensures { StaysSettled place.old place.new }
{
    match query(alloc) {
        Ok(spec) => asked(place, spec, Script::blank(alloc, 7)),
        Err(_) => 0,
    }
}

/// The addresses of IPv4 of `x.test.`
pub fn query(alloc: Global) -> Result<Spec, NoMemory> {
    Ok(Spec::Query {
        name: Bytes::of(alloc, b"x.test.")?,
        kind: 1,
        class: 1,
    })
}

/// Asks a request whose callback has this script.
pub fn asked<R: Wait>(place: &mut Place<'_, Scripted, R>, spec: Spec, script: Script) -> u64
    ensures { StaysSettled place.old place.new }
{
    number_accepted(place.accept(spec, Callback::scripted(script)))
}

/// The number of a request that was accepted, or 0.
fn number_accepted(reply: Result<u64, Refused<Callback<Scripted>>>) -> u64 {
    match reply {
        Ok(number) => number,
        Err(_) => 0,
    }
}

/// Cancels every pending request.
pub fn cancelled<R: Wait>(place: &mut Place<'_, Scripted, R>) -> u64
    ensures { StaysSettled place.old place.new }
{
    place.cancel()
}

/// Destroys the channel.
pub fn destroyed<R: Wait>(place: &mut Place<'_, Scripted, R>) -> bool
    ensures { StaysSettled place.old place.new }
{
    place.destroy()
}

/// Delivers the first ready request.
#[tactic(auto, using(shared_channel::proofs::Theorems::stays_delivery))]
pub fn delivered<R: Wait, J: ChannelJournal>(place: &mut Place<'_, Scripted, R, J>) -> u64
    ensures { StaysSettled place.old place.new }
{
    number_called(deliver_one(place, FOLLOW))
}

/// The number of a callback that was called, or 0.
fn number_called(called: Option<Called<Scripted>>) -> u64 {
    match called {
        Some(called) => called.number(),
        None => 0,
    }
}

/// Makes these servers the channel's list.
pub fn servers_set<R: Wait>(place: &mut Place<'_, Scripted, R>, servers: &[ServerAddr]) -> u64
    requires some { 1 ≤ length servers.now }
    requires few { length servers.now ≤ 8 }
    ensures { StaysSettled place.old place.new }
{
    count_closed(place.set_servers(servers))
}

/// How many attempts a new list of servers closed, or 21 where the channel is destroyed, 22 where no key is left, and 15
/// for want of memory.
fn count_closed(reply: Result<u64, SetFault>) -> u64 {
    match reply {
        Ok(count) => count,
        Err(SetFault::Closed) => 21,
        Err(SetFault::Full) => 22,
        Err(SetFault::NoMemory) => 15,
    }
}
