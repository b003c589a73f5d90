//! The turns of a session, from its first to its end, through a place of its own.

ghost use Rattle.std.specs.Option.{ForSome};
ghost use Rattle.std.specs.Prelude.{◌≡◌, ◌<◌, ◌≤◌, ◌+◌, ◌∷◌, length, vec_capacity, vec_len};
ghost use Rattle.shared_channel.specs.Staying.{AreAt};
ghost use Rattle.shared_session.specs.Turns.{RunsTurns, standing_at};

use crate::passes::all_of;
use crate::serving::serve_if;
use crate::task::SessionEnd;
use chan_types::Orders;
use completion_ticket::Done;
use event_runner::Runner;
use net_addr::ServerList;
use net_world::World;
use shared_channel::{Channel, Pass};
use std::alloc::Global;
use std::sync::Wait;
use std::thread::Threads;
use turner_rounds::TurnerPump;
use worker_rounds::Team;
use worker_session::Turner;

/// Whether all requests were accepted, by which orders callbacks go, the servers that are set behind the first turn, if there
/// are such, and how many turns may be made.
#[derive(Drop)]
pub(crate) struct Given {
    pub asked: bool,
    pub orders: Orders,
    pub later: Option<ServerList>,
    pub turns: u64,
}

/// How the session ended, the channel's passes, in their order, and the network.
#[derive(Drop)]
pub(crate) struct Turned<B: Done + Drop, W: World + Drop> {
    pub end: SessionEnd,
    pub passes: Vec<Pass<B>>,
    pub world: W,
}

/// Makes turns through the first of a channel's passes, while workers call its callbacks, to the session's end.
pub(crate) fn run_turns<
    'c,
    B: Done + Drop + Send,
    W: World + Drop + Send,
    R: Threads + Wait + Sync,
>(
    alloc: Global,
    rt: &'c R,
    channel: &'c Channel<B>,
    given: Given,
    first: Pass<B>,
    team: Team<B>,
    runner: Runner,
    world: W,
) -> Turned<B, W>
    requires some { (0 < vec_len team.workers) × (vec_len team.workers ≤ 16) }
    requires room { vec_len team.workers + 1 < vec_capacity team.workers }
    requires at { AreAt channel.now (first ∷ team.owner ∷ team.workers.items) }
    requires few { ForSome given.later (λ later. (1 ≤ length later) × (length later ≤ 8)) }
    ensures turns { RunsTurns given.orders given.asked
        (standing_at first runner given.turns given.later (W.log world) (W.wait_faults world))
        team.owner team.workers.items result.end result.passes.items (W.log result.world)
        (W.wait_faults result.world) }
    ensures origin { W.origin result.world ≡ W.origin world }
{
    let Given {
        asked,
        orders,
        later,
        turns,
    } = given;
    let place = channel.place(rt, first);
    let pump = TurnerPump {
        turner: Turner::of(place, runner, world, later, turns),
    };
    let (end, team, pump) = serve_if(alloc, rt, channel, orders, asked, team, pump);
    let TurnerPump { turner } = pump;
    let Turner { desk, world, .. } = turner;
    Turned {
        end,
        passes: all_of(desk.leave(), team),
        world,
    }
}
