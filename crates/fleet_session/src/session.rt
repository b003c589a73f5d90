//! A fleet from its making to its end.

ghost use Rattle.std.specs.Prelude.{◌≡◌, ◌<◌, ◌≤◌, IfErr, IfOk, vec_len};
ghost use Rattle.fleet_session.specs.Session.{IsSession};

use crate::serving::serve_fleet;
use chan_types::{NoMemory, Orders};
use channel_fleet::{Fleet, Front, HelmEnd, Roll, Setup};
use channel_journal::{ChannelJournal, KeptJournal};
use completion_ticket::Done;
use net_world::World;
use std::alloc::Global;
use std::sync::Wait;
use std::thread::Threads;

/// What is left of a fleet that was served: why each channel's helm ended, in order, and what is left of each channel.
#[derive(Drop)]
pub struct Session<J: ChannelJournal = KeptJournal> {
    pub ends: Vec<Option<HelmEnd>>,
    pub roll: Roll<J>,
}

/// Makes a fleet for one caller with a channel for each of these setups, serves it over these networks beside the front, with
/// so many turns of each helm at most, and ends it. For want of memory nothing was done.
pub fn run_fleet<
    B: Done + Drop + Send,
    W: World + Drop + Send,
    F: Front<B, R, J> + Send,
    R: Threads + Wait + Sync,
    J: ChannelJournal + Send + Sync,
>(
    rt: &R,
    alloc: Global,
    setups: Vec<Setup>,
    worlds: Vec<W>,
    front: F,
    turns: u64,
    orders: Orders,
) -> (F, Result<Session<J>, NoMemory>)
    requires channels { (0 < vec_len setups) × (vec_len setups ≤ 16) }
    requires as_many { vec_len worlds ≡ vec_len setups }
    ensures session { IfOk result.1 (λ session. IsSession B F.does W.log W.wait_faults W.origin J.told setups.items worlds.items
        front result.0 turns orders session.ends.items session.roll) }
    ensures unmade { IfErr result.1 (λ _. result.0 ≡ front) }
{
    let channels = setups.len();
    let Ok(ends) = Vec::with_capacity(alloc, channels) else {
        return (front, Err(NoMemory));
    };
    let Ok(stands) = Vec::with_capacity(alloc, channels) else {
        return (front, Err(NoMemory));
    };
    match Fleet::make(rt, alloc, setups, 1) {
        Ok((fleet, passes, helms)) => {
            let (front, session) = serve_fleet(
                rt,
                (fleet, passes, helms),
                worlds,
                front,
                turns,
                orders,
                stands,
                ends,
            );
            (front, Ok(session))
        }
        Err(NoMemory) => {
            stands.destroy_empty();
            (front, Err(NoMemory))
        }
    }
}
