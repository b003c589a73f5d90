//! A fleet of two channels from its making to its end, without a network: two callers use it, one after the other.

ghost use Rattle.std.specs.Prelude.{◌≡◌, IfOk, vec_len};
ghost use Rattle.channel_fleet.specs.Staying.{BerthsStay};
ghost use Rattle.channel_fleet.specs.Views.{IsAtFleet};

use super::calls::{Answer, Deed, all_as_said};
use chan_types::{NoMemory, Orders, Status};
use channel_fleet::{Fleet, FleetPass, Roll, Setup};
use completion_ticket::Scripted;
use hosts_file::Hosts;
use resolv_options::Options;
use std::alloc::Global;
use std::sync::Wait;
use std::test::*;

/// Callbacks ask nothing further.
pub const QUIET: Orders = Orders {
    follow: false,
    first: false,
    quit: false,
};

/// The sum of `b.test` is 592, and that of `a.test` 591: they go to the channels 0 and 1. A literal, `192.0.2.1`, has the sum
/// 441, and is answered at once, so it isn't cancelled.
const FIRST: [(Deed, Answer); 4] = [
    (Deed::Look(b"b.test"), Some((0, 1))),
    (Deed::Look(b"a.test"), Some((1, 1))),
    (Deed::Look(b"192.0.2.1"), Some((1, 2))),
    (Deed::Show(1), Some((0, 0))),
];

/// The other caller's requests have the next numbers, and it cancels those of both.
const SECOND: [(Deed, Answer); 5] = [
    (Deed::Look(b"B.TEST"), Some((0, 2))),
    (Deed::Look(b"B.Test"), Some((0, 3))),
    (Deed::Cancel, Some((4, 0))),
    (Deed::Cancel, Some((0, 0))),
    (Deed::Look(b"a.test"), Some((1, 3))),
];

/// Both channels are destroyed once, and refuse then.
const THIRD: [(Deed, Answer); 5] = [
    (Deed::Destroy, Some((2, 0))),
    (Deed::Destroy, Some((0, 0))),
    (Deed::Look(b"a.test"), None),
    (Deed::Look(b"b.test"), None),
    (Deed::Show(2), None),
];

/// The default options, and no hosts.
pub fn plain_setup(alloc: Global) -> Result<Setup, NoMemory> {
    Ok(Setup {
        options: Options::plain(alloc)?,
        hosts: Hosts::empty(alloc),
    })
}

/// Two channels with the default options and without hosts.
fn setups(alloc: Global) -> Result<Vec<Setup>, NoMemory>
    ensures { IfOk result (λ setups. vec_len setups ≡ 2) }
{
    let mut setups = Vec::new(alloc);
    setups.push(plain_setup(alloc)?)?;
    setups.push(plain_setup(alloc)?)?;
    Ok(setups)
}

/// Both callers use the fleet.
fn used<R: Wait>(
    rt: &R,
    alloc: Global,
    fleet: &Fleet<Scripted>,
    first: &mut FleetPass<Scripted>,
    second: &mut FleetPass<Scripted>,
) -> bool
    requires first { IsAtFleet fleet.now first.old }
    requires second { IsAtFleet fleet.now second.old }
    ensures first { BerthsStay first.old first.new }
    ensures second { BerthsStay second.old second.new }
{
    let begun = all_as_said(rt, alloc, fleet, first, &FIRST);
    let cancelled = all_as_said(rt, alloc, fleet, second, &SECOND);
    let ended = all_as_said(rt, alloc, fleet, first, &THIRD);
    begun & cancelled & ended
}

/// A fleet from its making to its end: whether all answers were as said, and what is left of it.
fn whole<R: Wait>(rt: &R, alloc: Global) -> Result<(bool, Roll), NoMemory> {
    let setups = setups(alloc)?;
    let (fleet, mut passes, helms) = Fleet::<Scripted>::make(rt, alloc, setups, 2)?;
    let mut second = passes.pop().unwrap();
    let mut first = passes.pop().unwrap();
    let as_said = used(rt, alloc, &fleet, &mut first, &mut second);
    passes.push_reserved(first);
    passes.push_reserved(second);
    Ok((as_said, fleet.finish(rt, passes, helms, QUIET)))
}

/// How many requests this part accepted, how many answers were told, and how many of these say that it was cancelled.
fn counted(roll: &Roll, channel: usize) -> Option<(u64, u64, u64)> {
    let part = roll.parts().get(channel)?;
    let mut told = 0u64;
    let mut cancelled = 0u64;
    for call in part.calls.iter() {
        told = told.saturating_add(1);
        if call.status == Status::Cancelled {
            cancelled = cancelled.saturating_add(1);
        }
    }
    Some((part.accepted, told, cancelled))
}

// Six requests by two callers, four of which one of them cancels, and a last one that ends with its channel.
#[test]
fn two_channels(rt: HostRuntime) -> Result<(), Fail> {
    let (as_said, roll) = whole(&rt, rt.alloc())?;
    assert!(rt; as_said);
    assert!(rt; counted(&roll, 0) == Some((3, 3, 3)));
    assert!(rt; counted(&roll, 1) == Some((3, 3, 1)));
    assert!(rt; counted(&roll, 2) == None);
    Ok(())
}
