//! Deliveries of several requests through the one pass of a channel.

ghost use Rattle.std.specs.Prelude.{◌≡◌};
ghost use Rattle.shared_channel.specs.Staying.{StaysSettled};

use super::ending::ended;
use super::holds::{asked_at_once, delivered_some};
use super::telling::{has_calls, has_journal};
use chan_types::NoMemory;
use completion_ticket::Scripted;
use shared_channel::{Channel, Finished, Pass, last_pass, plain_channel};
use std::alloc::Global;
use std::sync::Wait;
use std::test::*;

/// Five requests are asked and answered under one hold. Then more are wanted than there can be room for, then none, two,
/// as many as are left, and more than are left: how many each time were delivered.
#[tactic(auto, using(shared_channel::proofs::Theorems::stays_more))]
fn used<R: Wait>(
    rt: &R,
    channel: &Channel<Scripted>,
    pass: Pass<Scripted>,
    alloc: Global,
) -> (Pass<Scripted>, [u64; 5])
    requires { pass.lock ≡ channel.now }
    ensures { StaysSettled pass result.0 }
{
    let mut place = asked_at_once(channel.place(rt, pass), alloc, 5);
    let beyond_room = delivered_some(&mut place, alloc, u64::MAX);
    let none = delivered_some(&mut place, alloc, 0);
    let two = delivered_some(&mut place, alloc, 2);
    let rest = delivered_some(&mut place, alloc, 3);
    let nothing_left = delivered_some(&mut place, alloc, 3);
    (place.leave(), [beyond_room, none, two, rest, nothing_left])
}

/// What that comes to, and what is left of the channel.
fn used_alone<R: Wait>(rt: &R, alloc: Global) -> Result<([u64; 5], Finished), NoMemory> {
    let (channel, mut passes) = plain_channel(alloc, 1)?;
    let pass = last_pass(&channel, &mut passes);
    let (pass, told) = used(rt, &channel, pass, alloc);
    passes.push_reserved(pass);
    Ok((told, ended(rt, channel, passes)))
}

// Where there is no room nothing is taken; each request is called once, in the order in which they became ready.
#[test]
fn some_are_delivered(rt: HostRuntime) -> Result<(), Fail> {
    let (told, finished) = used_alone(&rt, rt.alloc())?;
    assert!(rt; told == [u64::MAX, 0, 2, 3, 0]);
    let lines = "accept 1\naccept 2\naccept 3\naccept 4\naccept 5\n\
    start 1\narrive\nstart 2\narrive\nstart 3\narrive\nstart 4\narrive\nstart 5\narrive\n\
    take 1\ntake 2\ntake 3\ntake 4\ntake 5\ndestroy\n";
    assert!(rt; has_journal(rt.alloc(), &finished, lines)?);
    let calls = [(1, 0), (2, 0), (3, 0), (4, 0), (5, 0)];
    assert!(rt; has_calls(rt.alloc(), &finished, &calls)?);
    Ok(())
}
