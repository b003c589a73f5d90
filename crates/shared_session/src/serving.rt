//! Rounds of a session, until its turns have come to an end.

ghost use Rattle.std.specs.Prelude.{◌≡◌, ◌<◌, ◌≤◌, ◌∷◌, IsFalse, vec_capacity, vec_len};
ghost use Rattle.pooled_places.specs.Standing.{AreStill};
ghost use Rattle.shared_channel.specs.Settling.{AreSettled};
ghost use Rattle.shared_channel.specs.Staying.{AreAt};
ghost use Rattle.shared_session.specs.Looking.{LooksBoth};
ghost use Rattle.shared_session.specs.Serving.{EndsAs, EndsIf, HasGone, IsBetween, LooksOnce, ends_of};
ghost use Rattle.shared_session.specs.Turnings.{turning_at};
ghost use Rattle.shared_session.specs.declared.task.SessionEnd.TheVariants.{OutOfMemory};
ghost use Rattle.worker_session.specs.declared.coming.Coming.TheVariants.{UnderWay};

use crate::looking::{both, look_all, look_one};
use crate::task::SessionEnd;
use chan_types::Orders;
use channel_model::Desk;
use completion_ticket::Done;
use net_world::World;
use shared_channel::{Channel, Place};
use std::alloc::Global;
use std::sync::Wait;
use std::thread::Threads;
use turner_rounds::TurnerPump;
use worker_rounds::{Served, Team, serve};
use worker_session::Coming;

/// For how many tickets there is room on the way to the workers.
const ROOM: u64 = 64;

/// The owner's pass and the workers', what makes the turns, and how the session has ended, if it has.
#[derive(Drop)]
pub(crate) struct Stage<B: Done + Drop, P: Drop> {
    pub team: Team<B>,
    pub pump: P,
    pub end: Option<SessionEnd>,
}

/// Rounds, over a pool each time, until the turns have come to an end, or nothing is left that any of the passes sees.
fn serve_all<'c, B: Done + Drop + Send, W: World + Drop + Send, R: Threads + Wait + Sync>(
    alloc: Global,
    rt: &'c R,
    channel: &'c Channel<B>,
    orders: Orders,
    team: Team<B>,
    pump: TurnerPump<Place<'c, B, R>, W>,
) -> (SessionEnd, Team<B>, TurnerPump<Place<'c, B, R>, W>)
    requires some { (0 < vec_len team.workers) × (vec_len team.workers ≤ 16) }
    requires at { AreAt channel.now (team.owner ∷ team.workers.items) }
    requires start { pump.turner.coming ≡ UnderWay }
    requires between { IsBetween (turning_at pump) }
    ensures gone { HasGone orders team.owner team.workers.items (turning_at pump.entry)
        result.1.owner result.1.workers.items (turning_at result.2) }
    ensures still { AreStill (team.owner ∷ team.workers.items) (result.1.owner ∷ result.1.workers.items) }
    ensures settled { AreSettled (team.owner ∷ team.workers.items)
        → AreSettled (result.1.owner ∷ result.1.workers.items) }
    ensures room { vec_capacity team.workers ≤ vec_capacity result.1.workers }
    ensures between { IsBetween (turning_at result.2) }
    ensures ends { EndsAs result.0 (turning_at result.2)
        (result.1.owner ∷ result.1.workers.items) }
    ensures origin { W.origin result.2.turner.world ≡ W.origin pump.entry.turner.world }
{
    let mut old = team;
    let mut turner = pump;
    for _ in rt.forever() {
        let Stage { team, pump, end } = serve_once(alloc, rt, channel, orders, old, turner);
        old = team;
        turner = pump;
        if let Some(end) = end {
            return (end, old, turner);
        }
    }
    unreachable!()
}

/// The same, unless a request was refused: then memory was wanting.
pub(crate) fn serve_if<'c, B: Done + Drop + Send, W: World + Drop + Send, R: Threads + Wait + Sync>(
    alloc: Global,
    rt: &'c R,
    channel: &'c Channel<B>,
    orders: Orders,
    asked: bool,
    team: Team<B>,
    pump: TurnerPump<Place<'c, B, R>, W>,
) -> (SessionEnd, Team<B>, TurnerPump<Place<'c, B, R>, W>)
    requires some { (0 < vec_len team.workers) × (vec_len team.workers ≤ 16) }
    requires at { AreAt channel.now (team.owner ∷ team.workers.items) }
    requires start { pump.turner.coming ≡ UnderWay }
    requires between { IsBetween (turning_at pump) }
    ensures gone { HasGone orders team.owner team.workers.items (turning_at pump.entry)
        result.1.owner result.1.workers.items (turning_at result.2) }
    ensures still { AreStill (team.owner ∷ team.workers.items) (result.1.owner ∷ result.1.workers.items) }
    ensures settled { AreSettled (team.owner ∷ team.workers.items)
        → AreSettled (result.1.owner ∷ result.1.workers.items) }
    ensures room { vec_capacity team.workers ≤ vec_capacity result.1.workers }
    ensures between { IsBetween (turning_at result.2) }
    ensures ends { EndsAs result.0 (turning_at result.2)
        (result.1.owner ∷ result.1.workers.items) }
    ensures origin { W.origin result.2.turner.world ≡ W.origin pump.entry.turner.world }
    ensures refused { IsFalse asked → result.0 ≡ OutOfMemory }
{
    if asked {
        serve_all(alloc, rt, channel, orders, team, pump)
    } else {
        (SessionEnd::OutOfMemory, team, pump)
    }
}

/// Rounds over one pool, and then a look through each pass.
fn serve_once<'c, B: Done + Drop + Send, W: World + Drop + Send, R: Threads + Wait + Sync>(
    alloc: Global,
    rt: &'c R,
    channel: &'c Channel<B>,
    orders: Orders,
    team: Team<B>,
    pump: TurnerPump<Place<'c, B, R>, W>,
) -> Stage<B, TurnerPump<Place<'c, B, R>, W>>
    requires some { (0 < vec_len team.workers) × (vec_len team.workers ≤ 16) }
    requires at { AreAt channel.now (team.owner ∷ team.workers.items) }
    requires start { pump.turner.coming ≡ UnderWay }
    requires between { IsBetween (turning_at pump) }
    ensures gone { HasGone orders team.owner team.workers.items (turning_at pump.entry)
        result.team.owner result.team.workers.items (turning_at result.pump) }
    ensures still { AreStill (team.owner ∷ team.workers.items) (result.team.owner ∷ result.team.workers.items) }
    ensures settled { AreSettled (team.owner ∷ team.workers.items)
        → AreSettled (result.team.owner ∷ result.team.workers.items) }
    ensures room { vec_capacity team.workers ≤ vec_capacity result.team.workers }
    ensures between { IsBetween (turning_at result.pump) }
    ensures ends { EndsIf result.end (turning_at result.pump)
        (result.team.owner ∷ result.team.workers.items) }
    ensures origin { W.origin result.pump.turner.world ≡ W.origin pump.entry.turner.world }
{
    let Served {
        team,
        pump,
        refused,
    } = serve(alloc, rt, channel, orders, ROOM, team, pump);
    if refused {
        return Stage {
            team,
            pump,
            end: Some(SessionEnd::OutOfMemory),
        };
    }
    let (team, over) = look_through(rt, channel, team);
    let (pump, done) = look_once(pump);
    let end = end_of(pump.turner.coming, both(over, done));
    Stage { team, pump, end }
}

/// Looks through the owner's pass and the workers', and answers whether nothing is seen to be pending or ready.
fn look_through<B: Done + Drop, R: Wait>(
    rt: &R,
    channel: &Channel<B>,
    team: Team<B>,
) -> (Team<B>, bool)
    requires { AreAt channel.now (team.owner ∷ team.workers.items) }
    ensures looks { LooksBoth result.1 team.owner team.workers.items result.0.owner result.0.workers.items }
    ensures room { vec_capacity result.0.workers ≡ vec_capacity team.workers }
{
    let Team { owner, mut workers } = team;
    let (owner, none) = look_one(rt, channel, owner);
    let over = look_all(rt, channel, &mut workers);
    (Team { owner, workers }, both(none, over))
}

/// Whether the turner sees that all is done.
fn look_once<D: Desk + Drop, W: World + Drop>(pump: TurnerPump<D, W>) -> (TurnerPump<D, W>, bool)
    ensures looks { LooksOnce result.1 (turning_at pump)
        (turning_at result.0) }
    ensures origin { W.origin result.0.turner.world ≡ W.origin pump.turner.world }
{
    let mut pump = pump;
    let done = pump.turner.has_ended();
    (pump, done)
}

/// How a session has ended whose turns have come so far, if it has: where more turns may be made, it has where all is over.
fn end_of(coming: Coming, over: bool) -> Option<SessionEnd>
    ensures { result ≡ ends_of coming over }
{
    match coming {
        Coming::UnderWay => {
            if over {
                Some(SessionEnd::Completed)
            } else {
                None
            }
        }
        Coming::WaitFault => Some(SessionEnd::WaitFault),
        Coming::Stalled => Some(SessionEnd::Stalled),
        Coming::OutOfMemory => Some(SessionEnd::OutOfMemory),
    }
}
