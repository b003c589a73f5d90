//! Calls that may be refused for want of memory. A test of the gate has memory enough; where one is refused all the same,
//! nothing may have changed, and it is made once more.

ghost use Rattle.std.specs.Prelude.{◌≤◌, length};

use chan_types::{NoMemory, Quiet, Refusal, Spec};
use channel_model::{Begun, Counts, Desk, Landed, Lapse, SetFault};
use channel_table::Alone;
use net_addr::ServerAddr;
use std::test::Fail;

/// A call that begins or ends attempts.
#[derive(Clone, Copy)]
pub enum Move<'a> {
    /// Begins an attempt with an identifier from this word upwards, at this moment.
    Start(u16, u64),
    /// A datagram of a server.
    Arrive(u32, &'a [u8]),
    /// Lets an attempt expire at this moment.
    Expire(u64),
    /// Fails the attempts on server 0 over this link, at moment 0.
    Fault(u64),
}

/// What it answers.
#[derive(Drop)]
pub enum Moved {
    Begun(Begun),
    Landed(Landed),
    Lapse(Lapse),
    Failed(u64),
}

/// What a channel tells without a change.
fn state(desk: &mut Alone<Quiet>) -> (Counts, Option<u64>) {
    (desk.counts(), desk.next_due())
}

/// That a channel, whose call was refused, tells what it told before.
fn unchanged(desk: &mut Alone<Quiet>, before: (Counts, Option<u64>)) -> Result<(), Fail> {
    if state(desk) == before {
        Ok(())
    } else {
        Err(Fail::new("a refused call changed the channel"))
    }
}

fn started(desk: &mut Alone<Quiet>, word: u16, at: u64) -> Result<Moved, NoMemory> {
    Ok(Moved::Begun(desk.start(word, 0, at)?))
}

fn arrived(desk: &mut Alone<Quiet>, server: u32, bytes: &[u8]) -> Result<Moved, NoMemory> {
    Ok(Moved::Landed(desk.arrive(server, 0, bytes)?))
}

fn expired(desk: &mut Alone<Quiet>, at: u64) -> Result<Moved, NoMemory> {
    Ok(Moved::Lapse(desk.expire(at)?))
}

fn failed(desk: &mut Alone<Quiet>, link: u64) -> Result<Moved, NoMemory> {
    Ok(Moved::Failed(desk.fault(0, link, 0)?))
}

fn tried(desk: &mut Alone<Quiet>, step: Move<'_>) -> Result<Moved, NoMemory> {
    match step {
        Move::Start(word, at) => started(desk, word, at),
        Move::Arrive(server, bytes) => arrived(desk, server, bytes),
        Move::Expire(at) => expired(desk, at),
        Move::Fault(link) => failed(desk, link),
    }
}

/// What a channel answers this call.
pub fn make_move(desk: &mut Alone<Quiet>, step: Move<'_>) -> Result<Moved, Fail> {
    let before = state(desk);
    match tried(desk, step) {
        Ok(answer) => Ok(answer),
        Err(NoMemory) => {
            unchanged(desk, before)?;
            Ok(tried(desk, step)?)
        }
    }
}

/// The number of a request, or why it is refused.
pub fn accepted(
    desk: &mut Alone<Quiet>,
    spec: Spec,
    token: Quiet,
) -> Result<Result<u64, Refusal>, Fail> {
    let before = state(desk);
    let refused = match desk.accept(spec, token) {
        Ok(number) => return Ok(Ok(number)),
        Err(refused) => refused,
    };
    unchanged(desk, before)?;
    if refused.why == Refusal::Closed {
        return Ok(Err(Refusal::Closed));
    }
    match desk.accept(refused.spec, refused.token) {
        Ok(number) => Ok(Ok(number)),
        Err(again) => Ok(Err(again.why)),
    }
}

/// How many attempts the list of these servers closes, of which there are 1 to 8, or why it is refused.
pub fn listed(
    desk: &mut Alone<Quiet>,
    servers: &[ServerAddr],
) -> Result<Result<u64, SetFault>, Fail>
    requires some { 1 ≤ length servers.now }
    requires few { length servers.now ≤ 8 }
{
    let before = state(desk);
    match desk.set_servers(servers) {
        Err(SetFault::NoMemory) => {
            unchanged(desk, before)?;
            Ok(desk.set_servers(servers))
        }
        answer => Ok(answer),
    }
}
