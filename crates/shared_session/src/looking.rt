//! What is left to be done in a channel, as each of its passes sees it.

ghost use Rattle.std.specs.Prelude.{◌≡◌, ◌&&◌, IsTrue, vec_capacity};
ghost use Rattle.shared_channel.specs.Staying.{AreAt};
ghost use Rattle.shared_session.specs.Looking.{LookEach, Looks};

use channel_model::{Counts, Desk};
use completion_ticket::Done;
use shared_channel::{Channel, Pass};
use std::sync::Wait;

/// Looks through each of these passes, and answers whether through none of them anything is seen to be pending or ready.
pub(crate) fn look_all<B: Done + Drop, R: Wait>(
    rt: &R,
    channel: &Channel<B>,
    passes: &mut Vec<Pass<B>>,
) -> bool
    requires { AreAt channel.now passes.old.items }
    ensures looks { LookEach result passes.old.items passes.new.items }
    ensures room { vec_capacity passes.new ≡ vec_capacity passes.old }
{
    let count = passes.len();
    let mut over = true;
    for _ in 0..count {
        let (pass, none) = look_one(rt, channel, passes.remove(0));
        over = both(over, none);
        passes.push_reserved(pass);
    }
    over
}

/// Whether both hold.
pub(crate) fn both(left: bool, right: bool) -> bool
    ensures { result ≡ (left && right) }
{
    left && right
}

/// The same through one pass.
pub(crate) fn look_one<B: Done + Drop, R: Wait>(
    rt: &R,
    channel: &Channel<B>,
    pass: Pass<B>,
) -> (Pass<B>, bool)
    requires { pass.lock ≡ channel.now }
    ensures { Looks result.1 pass result.0 }
{
    let mut place = channel.place(rt, pass);
    let counts = place.counts();
    let none = is_none(&counts);
    (place.leave(), none)
}

/// Whether nothing is pending or ready.
fn is_none(counts: &Counts) -> bool
    ensures { IsTrue result → (counts.now.pending ≡ 0) × (counts.now.ready ≡ 0) }
{
    counts.pending == 0 && counts.ready == 0
}
