//! A thread that asks.

ghost use Rattle.std.specs.Prelude.{◌≡◌, ◌∷◌, []};
ghost use Rattle.thread_lookups.specs.Passing.{HasAsked};

use chan_types::{Script, Spec};
use channel_model::Desk;
use completion_ticket::{Callback, Scripted};
use shared_channel::{Channel, Pass, Place};
use std::alloc::Global;
use std::sync::Wait;

/// What a thread came to that asked: its pass, and whether all of its requests were accepted.
#[derive(Drop)]
pub struct Asked {
    pub pass: Pass<Scripted>,
    pub all: bool,
}

/// Asks these requests through a pass, in order, each with a callback that commands nothing, up to one that is refused.
pub fn ask_all<R: Wait>(
    rt: &R,
    channel: &Channel<Scripted>,
    alloc: Global,
    pass: Pass<Scripted>,
    requests: Vec<Spec>,
) -> Asked
    requires { pass.lock ≡ channel.now }
    ensures { HasAsked requests.items result.all pass result.pass }
{
    let mut place = channel.place(rt, pass);
    let all = ask_each(&mut place, alloc, requests);
    Asked {
        pass: place.leave(),
        all,
    }
}

/// The same through a place. Answers whether all of them were accepted.
fn ask_each<R: Wait>(place: &mut Place<'_, Scripted, R>, alloc: Global, requests: Vec<Spec>) -> bool
    ensures { HasAsked requests.items result place.old place.new }
{
    for request in requests {
        if !ask_one(place, alloc, request) {
            return false;
        }
    }
    true
}

/// Asks a request. One that is refused is let go. Answers whether it was accepted.
fn ask_one<R: Wait>(place: &mut Place<'_, Scripted, R>, alloc: Global, request: Spec) -> bool
    ensures { HasAsked (request ∷ []) result place.old place.new }
{
    match place.accept(request, Callback::scripted(Script::blank(alloc, 0))) {
        Ok(_) => true,
        Err(refused) => {
            refused.token.refuse(refused.why);
            false
        }
    }
}
