//! The requests of a session are accepted.

ghost use Rattle.std.specs.Prelude.{◌≡◌};
ghost use Rattle.shared_session.specs.Asking.{AsksAll, AsksOne};

use chan_types::Spec;
use channel_model::{Desk, Refused};
use completion_ticket::{Callback, Done};
use shared_channel::{Channel, Pass, Place};
use std::collections::VecDeque;
use std::sync::Wait;

/// Accepts these requests through a pass, in order, up to one that is refused, and answers whether all were accepted.
pub(crate) fn ask_all<B: Done + Drop, R: Wait>(
    rt: &R,
    channel: &Channel<B>,
    pass: Pass<B>,
    requests: Vec<(Spec, Callback<B>)>,
) -> (Pass<B>, bool)
    requires { pass.lock ≡ channel.now }
    ensures { AsksAll requests.items result.1 pass result.0 }
{
    let mut place = channel.place(rt, pass);
    let mut requests = VecDeque::from(requests);
    while let Some((spec, token)) = requests.pop_front() {
        if !ask(&mut place, spec, token) {
            return (place.leave(), false);
        }
    }
    (place.leave(), true)
}

/// Accepts a request, and answers whether it was accepted. A callback whose request is refused is told so.
fn ask<B: Done + Drop, R: Wait>(place: &mut Place<'_, B, R>, spec: Spec, token: Callback<B>) -> bool
    ensures { AsksOne result (spec, token) place.old place.new }
{
    let Err(Refused { why, token, .. }) = place.accept(spec, token) else {
        return true;
    };
    token.refuse(why);
    false
}
