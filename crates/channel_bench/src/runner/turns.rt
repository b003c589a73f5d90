//! The things that are measured, by turns of a runner.

use super::flood::Flood;
use super::{DATAGRAMS, OVER_TCP};
use crate::failed::Failed;
use crate::requests::{ask_all, options_of};
use chan_types::Quiet;
use channel_model::Desk;
use channel_table::Alone;
use event_runner::Runner;
use std::alloc::Global;

/// A runner of a channel with these options, over this network.
fn runner_of(world: &mut Flood, alloc: Global, resolv: &[u8]) -> Result<Runner, Failed> {
    let options = options_of(alloc, resolv)?;
    Ok(Runner::make(alloc, world, &options)?)
}

/// So many datagrams come to a channel on which nothing is in flight. Answers how many came.
pub fn datagrams(
    desk: &mut Alone<Quiet>,
    world: &mut Flood,
    alloc: Global,
    times: u64,
) -> Result<u64, Failed> {
    received(
        &mut runner_of(world, alloc, DATAGRAMS)?,
        desk,
        world,
        times / 64,
    )
}

/// How many items come in so many turns.
fn received(
    runner: &mut Runner,
    desk: &mut Alone<Quiet>,
    world: &mut Flood,
    turns: u64,
) -> Result<u64, Failed> {
    let mut seen = 0u64;
    for _ in 0..turns {
        let turned = runner.turn(desk, world)?;
        seen = seen.wrapping_add(turned.received);
    }
    Ok(seen)
}

/// So many queries go over one link, and their replies come. Answers how many requests are ready.
pub fn link(
    desk: &mut Alone<Quiet>,
    world: &mut Flood,
    alloc: Global,
    queries: u64,
) -> Result<u64, Failed> {
    ask_all(desk, alloc, queries)?;
    answered(
        &mut runner_of(world, alloc, OVER_TCP)?,
        desk,
        world,
        queries,
    )
}

/// Turns until nothing more comes, the first aside. Answers how many requests are ready.
fn answered(
    runner: &mut Runner,
    desk: &mut Alone<Quiet>,
    world: &mut Flood,
    turns: u64,
) -> Result<u64, Failed> {
    for turn in 0..turns {
        let turned = runner.turn(desk, world)?;
        if turn > 0 && turned.received == 0 {
            break;
        }
    }
    Ok(desk.counts().ready)
}
