//! A helm that brings its channel to its answers, over a network that answers nothing.

use super::calls::{Answer, Deed, all_as_said};
use super::uses::{QUIET, plain_setup};
use chan_types::NoMemory;
use channel_fleet::{Fleet, HelmEnd, Roll};
use completion_ticket::Scripted;
use net_world::ScriptWorld;
use std::alloc::Global;
use std::sync::Wait;
use std::test::*;

/// A literal is answered at once, a name isn't.
const ROWS: [(Deed, Answer); 2] = [
    (Deed::Look(b"192.0.2.1"), Some((0, 1))),
    (Deed::Look(b"a.test"), Some((0, 2))),
];

/// A network without a word, on which nothing comes.
fn still_world(alloc: Global) -> ScriptWorld {
    ScriptWorld::make(Vec::new(alloc), Vec::new(alloc), Vec::new(alloc))
}

/// A fleet with one channel, whose helm may make so many turns: whether the requests were accepted, why the helm ended, what
/// is shown then, and what is left.
fn steered<R: Wait>(
    rt: &R,
    alloc: Global,
    turns: u64,
) -> Result<(bool, HelmEnd, (u64, u64), Roll), NoMemory> {
    let mut setups = Vec::new(alloc);
    setups.push(plain_setup(alloc)?)?;
    let (fleet, mut passes, mut helms) = Fleet::<Scripted>::make(rt, alloc, setups, 1)?;
    let mut pass = passes.pop().unwrap();
    let helm = helms.pop().unwrap();
    let as_said = all_as_said(rt, alloc, &fleet, &mut pass, &ROWS);
    let _channels = fleet.channels();
    let (helm, _world, end) = fleet.steer(rt, 0, helm, still_world(alloc), turns);
    let shown = fleet.show(&mut pass, 0);
    passes.push_reserved(pass);
    helms.push_reserved(helm);
    let roll = fleet.finish(rt, passes, helms, QUIET);
    Ok((as_said, end, (shown.turns, shown.counts.pending), roll))
}

// The literal is delivered. Without a turn the name's request stays pending: the helm has stalled, and says so in what it shows.
#[test]
fn a_helm_without_turns_stalls(rt: HostRuntime) -> Result<(), Fail> {
    let (as_said, end, shown, roll) = steered(&rt, rt.alloc(), 0)?;
    assert!(rt; as_said);
    assert!(rt; end == HelmEnd::Stalled);
    assert!(rt; shown == (0, 1));
    assert!(rt; roll.parts().len() == 1);
    Ok(())
}
