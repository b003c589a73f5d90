//! Calls of a fleet, as rows with what each has to answer.

ghost use Rattle.std.specs.Prelude.{◌≡◌, ◌<◌, length};
ghost use Rattle.channel_fleet.specs.Staying.{BerthsStay};
ghost use Rattle.channel_fleet.specs.Views.{IsAtFleet};

use chan_types::{Bytes, Family, NoMemory, Script, Spec};
use channel_fleet::{Fleet, FleetPass};
use completion_ticket::{Callback, Scripted};
use std::alloc::Global;
use std::sync::Wait;

/// What a caller does with a fleet.
#[derive(Clone, Copy)]
pub enum Deed {
    /// Looks up the addresses of a host: the channel and the request's number.
    Look(&'static [u8]),
    /// Cancels: how many requests.
    Cancel,
    /// Destroys: how many channels.
    Destroy,
    /// Reads the counts of a channel: the turns of its helm, and what is pending.
    Show(u64),
}

/// An answer with two numbers, or a refusal.
pub type Answer = Option<(u64, u64)>;

/// A look-up of this host.
fn look_up(alloc: Global, host: &[u8]) -> Result<Spec, NoMemory> {
    Ok(Spec::Address {
        host: Bytes::of(alloc, host)?,
        family: Family::Any,
        nosort: false,
    })
}

/// Looks up a host.
#[tactic(auto, using(channel_fleet::proofs::Theorems::stays_ask, channel_fleet::proofs::Theorems::berths_stay_none))]
fn looked<R: Wait>(
    rt: &R,
    alloc: Global,
    fleet: &Fleet<Scripted>,
    pass: &mut FleetPass<Scripted>,
    host: &[u8],
) -> Answer
    requires { IsAtFleet fleet.now pass.old }
    ensures { BerthsStay pass.old pass.new }
{
    let Ok(spec) = look_up(alloc, host) else {
        return None;
    };
    match fleet.ask(rt, pass, spec, Callback::scripted(Script::blank(alloc, 0))) {
        Ok(asked) => Some((asked.channel, asked.number)),
        Err(_) => None,
    }
}

/// Cancels.
#[tactic(auto, using(channel_fleet::proofs::Theorems::stays_cancels))]
fn cancelled<R: Wait>(rt: &R, fleet: &Fleet<Scripted>, pass: &mut FleetPass<Scripted>) -> Answer
    requires { IsAtFleet fleet.now pass.old }
    ensures { BerthsStay pass.old pass.new }
{
    Some((fleet.cancel(rt, pass), 0))
}

/// Destroys.
#[tactic(auto, using(channel_fleet::proofs::Theorems::stays_destroys))]
fn destroyed<R: Wait>(rt: &R, fleet: &Fleet<Scripted>, pass: &mut FleetPass<Scripted>) -> Answer
    requires { IsAtFleet fleet.now pass.old }
    ensures { BerthsStay pass.old pass.new }
{
    Some((fleet.destroy(rt, pass), 0))
}

/// Reads the counts of a channel, if the fleet has it.
#[tactic(auto, using(channel_fleet::proofs::Theorems::stays_show, channel_fleet::proofs::Theorems::berths_stay_none))]
fn shown(fleet: &Fleet<Scripted>, pass: &mut FleetPass<Scripted>, channel: u64) -> Answer
    requires { IsAtFleet fleet.now pass.old }
    ensures { BerthsStay pass.old pass.new }
{
    if channel >= fleet.channels() {
        return None;
    }
    let shown = fleet.show(pass, channel);
    Some((shown.turns, shown.counts.pending))
}

/// Does this.
fn done<R: Wait>(
    rt: &R,
    alloc: Global,
    fleet: &Fleet<Scripted>,
    pass: &mut FleetPass<Scripted>,
    deed: Deed,
) -> Answer
    requires { IsAtFleet fleet.now pass.old }
    ensures { BerthsStay pass.old pass.new }
{
    match deed {
        Deed::Look(host) => looked(rt, alloc, fleet, pass, host),
        Deed::Cancel => cancelled(rt, fleet, pass),
        Deed::Destroy => destroyed(rt, fleet, pass),
        Deed::Show(channel) => shown(fleet, pass, channel),
    }
}

/// Does all of this, and says whether each answer is the one beside it.
pub fn all_as_said<R: Wait>(
    rt: &R,
    alloc: Global,
    fleet: &Fleet<Scripted>,
    pass: &mut FleetPass<Scripted>,
    rows: &[(Deed, Answer)],
) -> bool
    requires { IsAtFleet fleet.now pass.old }
    ensures stay { BerthsStay pass.old pass.new }
    ensures at { IsAtFleet fleet.now pass.new }
{
    let mut as_said = true;
    for row in rows {
        let (deed, answer) = *row;
        if done(rt, alloc, fleet, pass, deed) != answer {
            as_said = false;
        }
    }
    as_said
}
