//! Threads that ask, beside the one that runs the channel.

ghost use Rattle.std.specs.Prelude.{◌≡◌};
ghost use Rattle.thread_lookups.specs.Passing.{OnlyRuns, HasAsked};

use crate::asking::{Asked, ask_all};
use crate::running::run_place;
use chan_types::Spec;
use completion_ticket::Scripted;
use event_runner::Runner;
use net_world::World;
use shared_channel::{Channel, Pass};
use std::alloc::Global;
use std::sync::Wait;
use std::thread::{Threads, join};

/// What a thread is to ask, and the pass through which it asks.
#[derive(Drop)]
pub struct Share {
    pub pass: Pass<Scripted>,
    pub requests: Vec<Spec>,
}

/// What the thread has that runs the channel.
#[derive(Drop)]
pub struct Run<W> {
    pub pass: Pass<Scripted>,
    pub runner: Runner,
    pub world: W,
}

/// The same, when it has run, and whether memory was never wanting.
#[derive(Drop)]
pub struct Ran<W> {
    pub run: Run<W>,
    pub whole: bool,
}

/// Asks a thread's requests in a thread of its own, and does the rest meanwhile in the caller's. Where no thread can be
/// started they are asked here, behind the rest.
fn ask_beside<R: Threads + Wait + Sync, G: FnOnce() -> A, A>(
    rt: &R,
    channel: &Channel<Scripted>,
    alloc: Global,
    share: Share,
    rest: G,
) -> (Asked, A)
    requires at { share.pass.lock ≡ channel.now }
    requires rest { G.pre rest }
    ensures asked { HasAsked share.requests.items result.0.all share.pass result.0.pass }
    ensures rest { G.post rest result.1 }
{
    let Share { pass, requests } = share;
    join(
        rt,
        move ||
            requires { pass.lock ≡ channel.now }
            ensures { HasAsked requests.items result.all pass result.pass }
        { ask_all(rt, channel, alloc, pass, requests) },
        rest,
    )
}

/// Runs the channel through a pass.
pub fn run_at<R: Wait, W: World + Drop>(rt: &R, channel: &Channel<Scripted>, run: Run<W>) -> Ran<W>
    requires { run.pass.lock ≡ channel.now }
    ensures { OnlyRuns run.pass result.run.pass }
{
    let Run {
        pass,
        mut runner,
        mut world,
    } = run;
    let mut place = channel.place(rt, pass);
    let whole = run_place(rt, &mut place, &mut runner, &mut world).is_ok();
    let pass = place.leave();
    let run = Run {
        pass,
        runner,
        world,
    };
    Ran { run, whole }
}

/// Runs the channel beside one thread that asks.
fn one_beside<R: Threads + Wait + Sync, W: World + Drop>(
    rt: &R,
    channel: &Channel<Scripted>,
    alloc: Global,
    share: Share,
    run: Run<W>,
) -> (Asked, Ran<W>)
    requires at { share.pass.lock ≡ channel.now }
    requires run { run.pass.lock ≡ channel.now }
    ensures asked { HasAsked share.requests.items result.0.all share.pass result.0.pass }
    ensures ran { OnlyRuns run.pass result.1.run.pass }
{
    ask_beside(
        rt,
        channel,
        alloc,
        share,
        move ||
            requires { run.pass.lock ≡ channel.now }
            ensures { OnlyRuns run.pass result.run.pass }
        { run_at(rt, channel, run) },
    )
}

/// Runs the channel beside two threads that ask.
fn two_beside<R: Threads + Wait + Sync, W: World + Drop>(
    rt: &R,
    channel: &Channel<Scripted>,
    alloc: Global,
    shares: (Share, Share),
    run: Run<W>,
) -> (Asked, (Asked, Ran<W>))
    requires at { (shares.0.pass.lock ≡ channel.now) × (shares.1.pass.lock ≡ channel.now) }
    requires run { run.pass.lock ≡ channel.now }
    ensures first { HasAsked shares.0.requests.items result.0.all shares.0.pass result.0.pass }
    ensures second { HasAsked shares.1.requests.items result.1.0.all shares.1.pass result.1.0.pass }
    ensures ran { OnlyRuns run.pass result.1.1.run.pass }
{
    let (first, second) = shares;
    ask_beside(
        rt,
        channel,
        alloc,
        first,
        move ||
            requires { (second.pass.lock ≡ channel.now) × (run.pass.lock ≡ channel.now) }
            ensures { HasAsked second.requests.items result.0.all second.pass result.0.pass
                × OnlyRuns run.pass result.1.run.pass }
        { one_beside(rt, channel, alloc, second, run) },
    )
}

/// Runs the channel beside three threads that ask.
pub fn three_beside<R: Threads + Wait + Sync, W: World + Drop>(
    rt: &R,
    channel: &Channel<Scripted>,
    alloc: Global,
    shares: (Share, Share, Share),
    run: Run<W>,
) -> (Asked, (Asked, (Asked, Ran<W>)))
    requires at { (shares.0.pass.lock ≡ channel.now) × (shares.1.pass.lock ≡ channel.now)
        × (shares.2.pass.lock ≡ channel.now) }
    requires run { run.pass.lock ≡ channel.now }
    ensures first { HasAsked shares.0.requests.items result.0.all shares.0.pass result.0.pass }
    ensures second { HasAsked shares.1.requests.items result.1.0.all shares.1.pass result.1.0.pass }
    ensures third { HasAsked shares.2.requests.items result.1.1.0.all shares.2.pass result.1.1.0.pass }
    ensures ran { OnlyRuns run.pass result.1.1.1.run.pass }
{
    let (first, second, third) = shares;
    ask_beside(
        rt,
        channel,
        alloc,
        first,
        move ||
            requires { (second.pass.lock ≡ channel.now) × (third.pass.lock ≡ channel.now) × (run.pass.lock ≡ channel.now) }
            ensures { HasAsked second.requests.items result.0.all second.pass result.0.pass
                × HasAsked third.requests.items result.1.0.all third.pass result.1.0.pass
                × OnlyRuns run.pass result.1.1.run.pass }
        { two_beside(rt, channel, alloc, (second, third), run) },
    )
}
