//! What a thread does at its place, move by move.

ghost use Rattle.std.specs.Prelude.{◌≡◌};
ghost use Rattle.shared_channel.specs.Staying.{StaysSettled};

use super::calls::{asked_query, cancelled, delivered, destroyed, servers_set};
use super::replies::{begun, replied_address, replied_name};
use super::running::{counted, due, expired, failed, is_busy};
use chan_types::NoMemory;
use completion_ticket::Scripted;
use net_addr::{Addr, ServerAddr};
use shared_channel::{Channel, Pass, Place};
use std::alloc::Global;
use std::sync::Wait;

/// The server 192.0.2.53.
const SERVER: ServerAddr = ServerAddr {
    address: Addr::V4(0xc000_0235),
    port: 53,
};

/// A move of a thread at its place.
#[derive(Clone, Copy)]
pub enum Move {
    /// Asks for the addresses of IPv4 of `x.test.`, with a callback that commands nothing.
    Ask,
    /// Cancels every pending request.
    Cancel,
    /// Destroys the channel.
    Destroy,
    /// Makes the server 192.0.2.53 the channel's list.
    Servers,
    /// Begins an attempt at this moment.
    Begin(u64),
    /// Begins an attempt, and takes in the reply 192.0.2.1 to it.
    ReplyAddress,
    /// Begins an attempt, and takes in the reply `host.test.` to it.
    ReplyName,
    /// Lets the attempt that is due first expire, if it is due at this moment.
    Expire(u64),
    /// Fails the attempts on this server over UDP.
    Fault(u32),
    /// Delivers the first ready request.
    Deliver,
    /// Looks when the next attempt is due.
    Due,
    /// Counts what is pending, ready, waiting and in flight.
    Counts,
    /// Looks whether an attempt is in flight on this server over UDP.
    Busy(u32),
}

/// Makes these moves, so many times, through a pass.
pub fn played<R: Wait>(
    rt: &R,
    channel: &Channel<Scripted>,
    pass: Pass<Scripted>,
    alloc: Global,
    moves: &[Move],
    times: u16,
) -> Pass<Scripted>
    requires { pass.lock ≡ channel.now }
    ensures { StaysSettled pass result }
{
    let mut place = channel.place(rt, pass);
    play_often(&mut place, alloc, moves, times);
    place.leave()
}

/// Makes these moves so many times.
#[tactic(auto, using(shared_channel::proofs::Theorems::stays_more, shared_channel::proofs::Theorems::stays_none))]
fn play_often<R: Wait>(
    place: &mut Place<'_, Scripted, R>,
    alloc: Global,
    moves: &[Move],
    times: u16,
)
    ensures { StaysSettled place.old place.new }
{
    for _ in 0..times {
        let _told = play(place, alloc, moves).is_ok();
    }
}

/// Makes these moves, and tells what each answered.
#[tactic(auto, using(shared_channel::proofs::Theorems::stays_more, shared_channel::proofs::Theorems::stays_none))]
pub fn play<R: Wait>(
    place: &mut Place<'_, Scripted, R>,
    alloc: Global,
    moves: &[Move],
) -> Result<Vec<u64>, NoMemory>
    ensures { StaysSettled place.old place.new }
{
    let mut told = Vec::new(alloc);
    for next in moves {
        told.push(moved(place, alloc, *next))?;
    }
    Ok(told)
}

/// Makes a move, and tells what it answered: a number or a moment, whether something came of it, or 0. Counts are told
/// as four digits.
fn moved<R: Wait>(place: &mut Place<'_, Scripted, R>, alloc: Global, next: Move) -> u64
    ensures { StaysSettled place.old place.new }
{
    match next {
        Move::Ask => asked_query(place, alloc),
        Move::Cancel => cancelled(place),
        Move::Destroy => destroyed(place) as u64,
        Move::Servers => servers_set(place, &[SERVER]),
        Move::Begin(at) => begun(place, at).is_some() as u64,
        Move::ReplyAddress => replied_address(place) as u64,
        Move::ReplyName => replied_name(place) as u64,
        Move::Expire(at) => expired(place, at),
        Move::Fault(server) => failed(place, server),
        Move::Deliver => delivered(place),
        Move::Due => due(place),
        Move::Counts => counted(place),
        Move::Busy(server) => is_busy(place, server) as u64,
    }
}
