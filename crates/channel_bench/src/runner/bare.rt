//! The same without a runner, by bare calls of the channel and the network in its place.

use super::flood::{Flood, LINK};
use super::messages::{FRAME_LENGTH, unframed};
use crate::failed::Failed;
use crate::requests::ask_all;
use chan_types::Quiet;
use channel_model::{Begun, Desk};
use channel_table::Alone;
use net_world::{Got, World};
use std::alloc::Global;

/// So many datagrams come to a channel on which nothing is in flight. Answers how many came.
pub fn datagrams_bare(
    desk: &mut Alone<Quiet>,
    world: &mut Flood,
    times: u64,
) -> Result<u64, Failed> {
    let mut seen = 0u64;
    for _ in 0..times {
        seen = seen.wrapping_add(receive(desk, world)?);
    }
    Ok(seen)
}

/// Receives a datagram for a channel, if one is there. Answers how many that were.
fn receive(desk: &mut Alone<Quiet>, world: &mut Flood) -> Result<u64, Failed> {
    if let Got::Datagram(server, bytes) = world.receive()? {
        let _landed = desk.arrive(server, 0, bytes.as_slice())?;
        return Ok(1);
    }
    Ok(0)
}

/// So many queries go over one link, and their replies come: nothing is framed, and no frame is cut. Answers how many
/// requests are ready.
pub fn link_bare(
    desk: &mut Alone<Quiet>,
    world: &mut Flood,
    alloc: Global,
    queries: u64,
) -> Result<u64, Failed> {
    ask_all(desk, alloc, queries)?;
    start_all(desk, world, queries)?;
    answered(desk, world.bytes())
}

/// So many queries go over the link.
fn start_all(desk: &mut Alone<Quiet>, world: &mut Flood, queries: u64) -> Result<(), Failed> {
    for _ in 0..queries {
        start(desk, world)?;
    }
    Ok(())
}

/// A query goes over the link.
fn start(desk: &mut Alone<Quiet>, world: &mut Flood) -> Result<(), Failed> {
    let word = world.word()?;
    if let Begun::Started { message, .. } = desk.start(word, 0, 0)? {
        let _wrote = world.write(LINK, message.as_slice())?;
    }
    Ok(())
}

/// The replies in these frames come. Answers how many requests are ready.
fn answered(desk: &mut Alone<Quiet>, frames: &[u8]) -> Result<u64, Failed> {
    for frame in frames.chunks_exact(FRAME_LENGTH) {
        let _landed = desk.arrive(0, LINK, unframed(frame))?;
    }
    Ok(desk.counts().ready)
}
