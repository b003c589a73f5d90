//! How a channel is shared, as the README of shared_channel tells it.

ghost use Rattle.std.specs.Prelude.{◌≡◌};
ghost use Rattle.shared_channel.specs.Staying.{StaysSettled};

use super::telling::has_calls;
use chan_types::{Bytes, Family, NoMemory, Orders, Script, Spec};
use channel_journal::ChannelJournal;
use channel_model::Desk;
use completion_ticket::{Callback, Scripted};
use shared_channel::{
    Channel, Finished, Pass, Place, deliver_one, finish, last_pass, plain_channel,
};
use std::alloc::Global;
use std::sync::Wait;
use std::test::*;
use std::thread::{Threads, join};

/// What the callbacks are ordered to do.
const ORDERS: Orders = Orders {
    follow: false,
    first: false,
    quit: false,
};

/// Asks a request with this callback.
pub fn ask_at<R: Wait, J: ChannelJournal>(
    place: &mut Place<'_, Scripted, R, J>,
    spec: Spec,
    callback: Callback<Scripted>,
)
    ensures { StaysSettled place.old place.new }
{
    let _accepted = place.accept(spec, callback).is_ok();
}

/// One thread asks a request.
fn ask<R: Wait>(
    rt: &R,
    channel: &Channel<Scripted>,
    pass: Pass<Scripted>,
    spec: Spec,
    callback: Callback<Scripted>,
) -> Pass<Scripted>
    requires { pass.lock ≡ channel.now }
    ensures { StaysSettled pass result }
{
    let mut place = channel.place(rt, pass);
    ask_at(&mut place, spec, callback);
    place.leave()
}

/// The other one calls the callback of the first ready request, if there is one yet.
#[tactic(auto, using(shared_channel::proofs::Theorems::stays_delivery))]
fn deliver<R: Wait>(rt: &R, channel: &Channel<Scripted>, pass: Pass<Scripted>) -> Pass<Scripted>
    requires { pass.lock ≡ channel.now }
    ensures { StaysSettled pass result }
{
    let mut place = channel.place(rt, pass);
    let _called = deliver_one(&mut place, ORDERS);
    place.leave()
}

/// Both threads, each with a pass of its own.
fn ask_and_deliver<R: Threads + Wait + Sync>(
    rt: &R,
    channel: &Channel<Scripted>,
    left: Pass<Scripted>,
    right: Pass<Scripted>,
    spec: Spec,
    callback: Callback<Scripted>,
) -> (Pass<Scripted>, Pass<Scripted>)
    requires left { left.lock ≡ channel.now }
    requires right { right.lock ≡ channel.now }
    ensures left { StaysSettled left result.0 }
    ensures right { StaysSettled right result.1 }
{
    join(
        rt,
        move ||
            requires { left.lock ≡ channel.now }
            ensures { StaysSettled left result }
        { ask(rt, channel, left, spec, callback) },
        move ||
            requires { right.lock ≡ channel.now }
            ensures { StaysSettled right result }
        { deliver(rt, channel, right) },
    )
}

/// The addresses of 192.0.2.1, which are answered at once.
fn literal(alloc: Global) -> Result<Spec, NoMemory> {
    Ok(Spec::Address {
        host: Bytes::of(alloc, b"192.0.2.1")?,
        family: Family::Any,
        nosort: false,
    })
}

/// A channel from its making to its end. It can't be dropped: no `?` stands behind its making.
fn shared_by_two<R: Threads + Wait + Sync>(rt: &R, alloc: Global) -> Result<Finished, NoMemory> {
    let spec = literal(alloc)?;
    let callback = Callback::scripted(Script::blank(alloc, 0));
    let (channel, mut passes) = plain_channel(alloc, 2)?;
    let right = last_pass(&channel, &mut passes);
    let left = last_pass(&channel, &mut passes);
    let (left, right) = ask_and_deliver(rt, &channel, left, right, spec, callback);
    passes.push_reserved(left);
    passes.push_reserved(right);
    Ok(finish(rt, channel, passes, ORDERS))
}

#[test]
fn two_threads_share_a_channel(rt: HostRuntime) -> Result<(), Fail> {
    let finished = shared_by_two(&rt, rt.alloc())?;
    assert!(rt; finished.accepted == 1);
    assert!(rt; has_calls(rt.alloc(), &finished, &[(1, 0)])?);
    Ok(())
}
