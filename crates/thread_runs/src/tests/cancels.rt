//! A thread that asks and cancels, beside one that makes turns.

ghost use Rattle.std.specs.Prelude.{◌≡◌};
ghost use Rattle.shared_channel.specs.Staying.{StaysSettled};

use super::network::network;
use chan_types::{NoMemory, Orders, Script, Spec, Status};
use channel_model::Desk;
use completion_ticket::{Callback, Scripted};
use event_runner::Runner;
use host_lookups::request_for;
use net_world::World;
use resolv_options::Options;
use shared_channel::{Channel, Finished, Pass, Place, finish, last_pass, plain_channel};
use std::alloc::Global;
use std::sync::Wait;
use std::test::Fail;
use std::thread::{Threads, join};
use thread_lookups::{RunEnd, run_place};

/// Callbacks ask nothing further.
const QUIET: Orders = Orders {
    follow: false,
    first: false,
    quit: false,
};

/// Asks this. A request that is refused is let go.
fn ask_this<R: Wait>(place: &mut Place<'_, Scripted, R>, alloc: Global, request: Spec)
    ensures { StaysSettled place.old place.new }
{
    let callback = Callback::scripted(Script::blank(alloc, 0));
    let _accepted = place.accept(request, callback).is_ok();
}

/// Asks for a host's addresses. For want of memory it asks nothing.
#[tactic(auto, using(shared_channel::proofs::Theorems::stays_none))]
fn ask<R: Wait>(place: &mut Place<'_, Scripted, R>, alloc: Global)
    ensures { StaysSettled place.old place.new }
{
    match request_for(alloc, "a.test") {
        Ok(request) => ask_this(place, alloc, request),
        Err(_) => {}
    }
}

/// Asks ten times, and then cancels what is pending.
#[tactic(auto, using(shared_channel::proofs::Theorems::stays_more, shared_channel::proofs::Theorems::stays_none))]
fn ask_ten<R: Wait>(place: &mut Place<'_, Scripted, R>, alloc: Global)
    ensures { StaysSettled place.old place.new }
{
    for _ in 0..10u64 {
        ask(place, alloc);
    }
    cancel(place);
}

/// Cancels what is pending.
fn cancel<R: Wait>(place: &mut Place<'_, Scripted, R>)
    ensures { StaysSettled place.old place.new }
{
    place.cancel();
}

/// Asks a hundred times through a pass, and cancels behind each tenth.
#[tactic(auto, using(shared_channel::proofs::Theorems::stays_more, shared_channel::proofs::Theorems::stays_none))]
fn asked<R: Wait>(
    rt: &R,
    channel: &Channel<Scripted>,
    alloc: Global,
    pass: Pass<Scripted>,
) -> Pass<Scripted>
    requires { pass.lock ≡ channel.now }
    ensures { StaysSettled pass result }
{
    let mut place = channel.place(rt, pass);
    for _ in 0..10u64 {
        ask_ten(&mut place, alloc);
    }
    place.leave()
}

/// A runner and its network.
#[derive(Drop)]
struct Network<W> {
    runner: Runner,
    world: W,
}

/// Runs the channel through a pass, and answers whether nothing was left.
fn ran<R: Wait, W: World + Drop>(
    rt: &R,
    channel: &Channel<Scripted>,
    pass: Pass<Scripted>,
    network: Network<W>,
) -> (Pass<Scripted>, Network<W>, bool)
    requires { pass.lock ≡ channel.now }
    ensures { StaysSettled pass result.0 }
{
    let Network {
        mut runner,
        mut world,
    } = network;
    let mut place = channel.place(rt, pass);
    let end = run_place(rt, &mut place, &mut runner, &mut world);
    let pass = place.leave();
    (pass, Network { runner, world }, end == Ok(RunEnd::Over))
}

/// Asks through a pass in a thread of its own, and does the rest meanwhile in the caller's.
fn asked_beside<R: Threads + Wait + Sync, G: FnOnce() -> A, A>(
    rt: &R,
    channel: &Channel<Scripted>,
    alloc: Global,
    pass: Pass<Scripted>,
    rest: G,
) -> (Pass<Scripted>, A)
    requires at { pass.lock ≡ channel.now }
    requires rest { G.pre rest }
    ensures asked { StaysSettled pass result.0 }
    ensures rest { G.post rest result.1 }
{
    join(
        rt,
        move ||
            requires { pass.lock ≡ channel.now }
            ensures { StaysSettled pass result }
        { asked(rt, channel, alloc, pass) },
        rest,
    )
}

/// Runs the channel through a pass, beside one thread that asks.
fn one_beside<R: Threads + Wait + Sync, W: World + Drop>(
    rt: &R,
    channel: &Channel<Scripted>,
    alloc: Global,
    passes: (Pass<Scripted>, Pass<Scripted>),
    network: Network<W>,
) -> (Pass<Scripted>, (Pass<Scripted>, Network<W>, bool))
    requires first { passes.0.lock ≡ channel.now }
    requires second { passes.1.lock ≡ channel.now }
    ensures first { StaysSettled passes.0 result.0 }
    ensures second { StaysSettled passes.1 result.1.0 }
{
    let (first, main) = passes;
    asked_beside(
        rt,
        channel,
        alloc,
        first,
        move ||
            requires { main.lock ≡ channel.now }
            ensures { StaysSettled main result.0 }
        { ran(rt, channel, main, network) },
    )
}

/// What is left of a channel of which one thread asks, and whether nothing was left before its end.
fn shared_by_two<R: Threads + Wait + Sync, W: World + Drop>(
    rt: &R,
    alloc: Global,
    mut world: W,
) -> Result<(Finished, bool), NoMemory> {
    let runner = Runner::make(alloc, &mut world, &Options::plain(alloc)?)?;
    let (channel, mut passes) = plain_channel(alloc, 2)?;
    let second = last_pass(&channel, &mut passes);
    let first = last_pass(&channel, &mut passes);
    let network = Network { runner, world };
    let (second, (first, network, _)) = one_beside(rt, &channel, alloc, (second, first), network);
    // What was asked behind the run's end is run now that nobody asks any more.
    let (first, _, over) = ran(rt, &channel, first, network);
    passes.push_reserved(first);
    passes.push_reserved(second);
    Ok((finish(rt, channel, passes, QUIET), over))
}

/// Whether each of so many requests was called once, with an address or cancelled.
fn has_called_each(alloc: Global, finished: &Finished, accepted: u64) -> Result<bool, NoMemory> {
    let mut numbers = Vec::new(alloc);
    for answer in finished.calls.iter() {
        numbers.push(answer.number)?;
        match answer.status {
            Status::Success | Status::Cancelled => {}
            _ => return Ok(false),
        }
    }
    numbers.sort()?;
    let each = (1..)
        .zip(numbers.iter())
        .all(|(number, called)| number == *called);
    Ok(each && numbers.len() as u64 == accepted && finished.accepted == accepted)
}

// A hundred requests are accepted while the other thread makes turns, and each is called once: with an address, or as one
// that was cancelled; none is left for the channel's end.
#[test]
fn one_thread_asks_and_cancels_beside_one_that_runs(rt: HostRuntime) -> Result<(), Fail> {
    let alloc = rt.alloc();
    for seed in 0..5 {
        let (finished, over) = shared_by_two(&rt, alloc, network(alloc, seed)?)?;
        assert!(rt; over && has_called_each(alloc, &finished, 100)?, "{seed}");
    }
    Ok(())
}
