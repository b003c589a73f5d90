//! A runner over a place: turns and pauses over a network, while other threads use the channel.

ghost use Rattle.std.specs.Prelude.{◌≡◌, ◌≤◌, IsTrue, Ok};
ghost use Rattle.channel_session.specs.Left.{IsOver};
ghost use Rattle.net_world.specs.Cause.{Rose};
ghost use Rattle.shared_channel.specs.Passes.{desk_of};
ghost use Rattle.thread_lookups.specs.Passing.{OnlyRuns};

use chan_types::Orders;
use channel_journal::ChannelJournal;
use channel_model::Desk;
use completion_ticket::Done;
use event_runner::{Paused, Runner};
use item_list::NoMemory;
use net_world::World;
use shared_channel::{Place, deliver_one};
use std::sync::Wait;
use std::thread;

/// The longest pause, in milliseconds: so long a request may wait that another thread asks meanwhile.
const SLICE: u64 = 20;

/// How often it looks again where there is nothing to do: another thread may be about to ask.
const PATIENCE: u64 = 1000;

/// What callbacks are ordered to do: to ask further.
pub const FOLLOW: Orders = Orders {
    follow: true,
    first: false,
    quit: false,
};

/// How a run ended.
#[derive(Clone, Copy, Debug, PartialEq, Eq)]
pub enum RunEnd {
    /// Nothing was pending or ready.
    Over,
    /// A wait of the network failed.
    WaitFault,
}

/// Runs a channel through a place over this network: makes turns and pauses, and calls the callback of each request that
/// completes, until nothing is pending or ready for some while, or a wait fails. Others may use the channel meanwhile, by
/// places of their own; but the network is the runner's, and nobody else uses it. It may be called again.
pub fn run_place<B: Done + Drop, R: Wait, J: ChannelJournal, W: World>(
    rt: &R,
    place: &mut Place<'_, B, R, J>,
    runner: &mut Runner,
    world: &mut W,
) -> Result<RunEnd, NoMemory>
    ensures asks { OnlyRuns place.old place.new }
    ensures over { result ≡ Ok RunEnd.Over → IsOver (desk_of place.new) }
    ensures wait_fault { result ≡ Ok RunEnd.WaitFault → Rose (W.wait_faults world.old) (W.wait_faults world.new) }
    ensures waits { W.wait_faults world.old ≤ W.wait_faults world.new }
    ensures origin { W.origin world.new ≡ W.origin world.old }
{
    let mut idle: u64 = 0;
    for _ in rt.forever() {
        deliver_ready(rt, place);
        if !is_over(place) {
            idle = 0;
            if let Paused::WaitFault = turn_and_pause(place, runner, world)? {
                return Ok(RunEnd::WaitFault);
            }
        } else if idle >= PATIENCE {
            return Ok(RunEnd::Over);
        } else {
            idle = idle.saturating_add(1);
            thread::yield_now();
        }
    }
    unreachable!()
}

/// Calls the callbacks of the requests that are ready, until none is.
fn deliver_ready<B: Done + Drop, R: Wait, J: ChannelJournal>(rt: &R, place: &mut Place<'_, B, R, J>)
    ensures { OnlyRuns place.old place.new }
{
    for _ in rt.forever() {
        if deliver_next(place) {
            return;
        }
    }
    unreachable!()
}

/// Calls the callback of the first ready request. Answers whether none was ready.
fn deliver_next<B: Done + Drop, R: Wait, J: ChannelJournal>(place: &mut Place<'_, B, R, J>) -> bool
    ensures { OnlyRuns place.old place.new }
{
    deliver_one(place, FOLLOW).is_none()
}

/// Whether nothing is pending or ready on a place's channel.
fn is_over<B: Done + Drop, R: Wait, J: ChannelJournal>(place: &mut Place<'_, B, R, J>) -> bool
    ensures asks { OnlyRuns place.old place.new }
    ensures over { IsTrue result → IsOver (desk_of place.new) }
{
    let counts = place.counts();
    counts.pending == 0 && counts.ready == 0
}

/// A turn through a place, and a pause behind it.
fn turn_and_pause<B: Done + Drop, R: Wait, J: ChannelJournal, W: World>(
    place: &mut Place<'_, B, R, J>,
    runner: &mut Runner,
    world: &mut W,
) -> Result<Paused, NoMemory>
    ensures asks { OnlyRuns place.old place.new }
    ensures wait_fault { result ≡ Ok Paused.WaitFault → Rose (W.wait_faults world.old) (W.wait_faults world.new) }
    ensures waits { W.wait_faults world.old ≤ W.wait_faults world.new }
    ensures origin { W.origin world.new ≡ W.origin world.old }
{
    turn(place, runner, world)?;
    pause(place, runner, world)
}

/// A turn through a place.
fn turn<B: Done + Drop, R: Wait, J: ChannelJournal, W: World>(
    place: &mut Place<'_, B, R, J>,
    runner: &mut Runner,
    world: &mut W,
) -> Result<(), NoMemory>
    ensures asks { OnlyRuns place.old place.new }
    ensures waits { W.wait_faults world.new ≡ W.wait_faults world.old }
    ensures origin { W.origin world.new ≡ W.origin world.old }
{
    runner.turn(place, world)?;
    Ok(())
}

/// A pause at a place.
fn pause<B: Done + Drop, R: Wait, J: ChannelJournal, W: World>(
    place: &mut Place<'_, B, R, J>,
    runner: &mut Runner,
    world: &mut W,
) -> Result<Paused, NoMemory>
    ensures asks { OnlyRuns place.old place.new }
    ensures wait_fault { result ≡ Ok Paused.WaitFault → Rose (W.wait_faults world.old) (W.wait_faults world.new) }
    ensures waits { W.wait_faults world.old ≤ W.wait_faults world.new }
    ensures origin { W.origin world.new ≡ W.origin world.old }
{
    runner.pause(place, world, SLICE)
}
