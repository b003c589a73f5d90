//! A fleet that has been made: it is served and ended.

ghost use Rattle.std.specs.Prelude.{◌≡◌, ◌≤◌, List, [], length, map, vec_capacity, vec_len};
ghost use Rattle.channel_fleet.specs.Making.{IsNewFleet};
ghost use Rattle.channel_fleet.specs.declared.setup.Setup.{Setup};
ghost use Rattle.fleet_session.specs.Session.{IsServedFleet};

use crate::session::Session;
use chan_types::Orders;
use channel_fleet::{Fleet, FleetPass, Front, Helm, HelmEnd, Stand, leave_stands, take_stands};
use channel_journal::ChannelJournal;
use completion_ticket::Done;
use net_world::World;
use std::sync::Wait;
use std::thread::Threads;

/// Serves a new fleet of one caller over these networks beside the front, and ends it. There is room for the stands and the
/// ends.
pub(crate) fn serve_fleet<
    B: Done + Drop + Send,
    W: World + Drop + Send,
    F: Front<B, R, J> + Send,
    R: Threads + Wait + Sync,
    J: ChannelJournal + Send + Sync,
>(
    rt: &R,
    made: (Fleet<B, J>, Vec<FleetPass<B, J>>, Vec<Helm<B, J>>),
    worlds: Vec<W>,
    front: F,
    turns: u64,
    orders: Orders,
    stands: Vec<Stand<B, W, J>>,
    ends: Vec<Option<HelmEnd>>,
) -> (F, Session<J>)
    requires new { (setups : List Setup) × IsNewFleet setups 1 made.0 made.1.items made.2.items }
    requires as_many { vec_len worlds ≡ vec_len made.2 }
    requires none { (stands.items ≡ []) × (ends.items ≡ []) }
    requires room { (vec_len made.2 ≤ vec_capacity stands) × (vec_len made.2 ≤ vec_capacity ends) }
    ensures { IsServedFleet B F.does W.log W.wait_faults W.origin J.told made.0 made.1.items made.2.items worlds.items
        front result.0 turns orders result.1.ends.items result.1.roll }
{
    let (fleet, mut passes, mut helms) = made;
    let mut ends = ends;
    let mut pass = passes.pop().unwrap();
    let mut stands = take_stands(&mut helms, worlds, stands);
    let front = fleet.serve(rt, &mut stands, front, &mut pass, turns);
    note_ends(&stands, &mut ends);
    leave_stands(stands, &mut helms);
    passes.push_reserved(pass);
    let roll = fleet.finish(rt, passes, helms, orders);
    (front, Session { ends, roll })
}

/// Why each of these helms has ended, in order, where there is room.
fn note_ends<B: Done + Drop, W, J: ChannelJournal>(
    stands: &[Stand<B, W, J>],
    ends: &mut Vec<Option<HelmEnd>>,
)
    requires none { ends.old.items ≡ [] }
    requires room { length stands.now ≤ vec_capacity ends.old }
    ensures { ends.new.items ≡ map (λ stand. stand.end) stands.now }
{
    for stand in stands {
        ends.push_reserved(stand.end);
    }
}
