//! Receiving: a datagram is judged by its cookie, and what else comes is handed on.

ghost use Rattle.std.specs.Prelude.{◌≡◌, ◌<◌, IfOk, IfErr, vec_len, vec_capacity};
ghost use Rattle.std.specs.HashMap.{spare};
ghost use Rattle.net_world.specs.declared.answers.Got.TheVariants.{Datagram, Piece};
ghost use Rattle.net_world.specs.declared.log.WorldCall.TheVariants.{Receive};
ghost use Rattle.net_world.specs.World.{IsWhole};
ghost use Rattle.cookie_world.specs.Rounds as meaning;
ghost use Rattle.cookie_world.specs.Rounds.{Goes, told, with_cookie, with_repeat};
ghost use Rattle.cookie_world.specs.Receiving.{TakesNext, Carries, Hands};
ghost use Rattle.cookie_world.specs.State.{MayHold, state_of};
ghost use Rattle.cookie_world.specs.Verdict.{verdict_of};

use crate::state::{Kept, Peer, Query, make_room, put_peer, put_query, tell};
use crate::verdict::{Verdict, judge_datagram};
use item_list::{Bytes, NoMemory};
use net_world::{Got, Sent, World, WorldCall};
use std::alloc::Global;

/// Receives what is held, or else what the World gives. What comes is held, where memory is wanting for it.
pub(crate) fn receive_with<W: World>(world: &mut W, kept: &mut Kept) -> Result<Got, NoMemory>
    requires held { MayHold kept.old.held }
    ensures goes { Goes Receive result (W.log world.old) (W.log world.new) (state_of kept.old)
        (state_of kept.new) }
    ensures answer { IfOk result IsWhole }
    ensures waits { W.wait_faults world.new ≡ W.wait_faults world.old }
    ensures reading { W.reading world.new ≡ W.reading world.old }
    ensures origin { W.origin world.new ≡ W.origin world.old }
{
    make_room(kept)?;
    let came = take_next(world, kept)?;
    match hand(world, kept, came) {
        Ok(got) => Ok(got),
        Err(back) => {
            kept.held = Some(back);
            Err(NoMemory)
        }
    }
}

/// What is held, or else what the World gives.
fn take_next<W: World>(world: &mut W, kept: &mut Kept) -> Result<Got, NoMemory>
    requires held { MayHold kept.old.held }
    ensures next { TakesNext result (W.log world.old) (W.log world.new) kept.old kept.new }
    ensures whole { IfOk result IsWhole }
    ensures waits { W.wait_faults world.new ≡ W.wait_faults world.old }
    ensures reading { W.reading world.new ≡ W.reading world.old }
    ensures origin { W.origin world.new ≡ W.origin world.old }
{
    match kept.held.take() {
        Some(came) => Ok(came),
        None => world.receive(),
    }
}

/// Judges or hands on what came, and gives it back where memory is wanting.
fn hand<W: World>(world: &mut W, kept: &mut Kept, came: Got) -> Result<Got, Got>
    requires whole { IsWhole came }
    requires peers { vec_len kept.old.peers < vec_capacity kept.old.peers }
    requires queries { 0 < spare kept.old.queries }
    requires log { vec_len kept.old.log < vec_capacity kept.old.log }
    ensures hands { Hands came result (W.log world.old) (W.log world.new) (state_of kept.old)
        (state_of kept.new) }
    ensures answer { IfOk result IsWhole }
    ensures waits { W.wait_faults world.new ≡ W.wait_faults world.old }
    ensures reading { W.reading world.new ≡ W.reading world.old }
    ensures origin { W.origin world.new ≡ W.origin world.old }
{
    match came {
        Got::Datagram(server, bytes) => hand_datagram(world, kept, server, bytes),
        Got::Piece(link, bytes) => hand_piece(kept, link, bytes),
        Got::Ended(link) => {
            tell(
                kept,
                WorldCall::Receive {
                    got: Got::Ended(link),
                },
            );
            Ok(Got::Ended(link))
        }
        Got::Nothing => {
            tell(kept, WorldCall::Receive { got: Got::Nothing });
            Ok(Got::Nothing)
        }
        Got::Failed(server, link) => {
            tell(
                kept,
                WorldCall::Receive {
                    got: Got::Failed(server, link),
                },
            );
            Ok(Got::Failed(server, link))
        }
    }
}

/// Hands on a piece of a link.
fn hand_piece(kept: &mut Kept, link: u64, bytes: Bytes) -> Result<Got, Got>
    requires { vec_len kept.old.log < vec_capacity kept.old.log }
    ensures ok { IfOk result (λ got. (got ≡ Piece link bytes)
        × (state_of kept.new ≡ told (Receive got) (state_of kept.old))) }
    ensures err { IfErr result (λ back. (back ≡ Piece link bytes) × (state_of kept.new ≡ state_of kept.old)) }
{
    match Bytes::of(kept.alloc, bytes.as_slice()) {
        Ok(copy) => {
            tell(
                kept,
                WorldCall::Receive {
                    got: Got::Piece(link, copy),
                },
            );
            Ok(Got::Piece(link, bytes))
        }
        Err(NoMemory) => Err(Got::Piece(link, bytes)),
    }
}

/// Judges a datagram, and does what that takes.
fn hand_datagram<W: World>(
    world: &mut W,
    kept: &mut Kept,
    server: u32,
    bytes: Bytes,
) -> Result<Got, Got>
    requires peers { vec_len kept.old.peers < vec_capacity kept.old.peers }
    requires queries { 0 < spare kept.old.queries }
    requires log { vec_len kept.old.log < vec_capacity kept.old.log }
    ensures carries { Carries server bytes
        (verdict_of kept.old.peers.items kept.old.queries.entries server bytes) result
        (W.log world.old) (W.log world.new) (state_of kept.old) (state_of kept.new) }
    ensures answer { IfOk result IsWhole }
    ensures waits { W.wait_faults world.new ≡ W.wait_faults world.old }
    ensures reading { W.reading world.new ≡ W.reading world.old }
    ensures origin { W.origin world.new ≡ W.origin world.old }
{
    match judge_datagram(
        kept.alloc,
        &kept.peers,
        &kept.queries,
        server,
        bytes.as_slice(),
    ) {
        Ok(verdict) => carry_out(world, kept, server, bytes, verdict),
        Err(NoMemory) => Err(Got::Datagram(server, bytes)),
    }
}

/// Does what the verdict on a datagram says.
fn carry_out<W: World>(
    world: &mut W,
    kept: &mut Kept,
    server: u32,
    bytes: Bytes,
    verdict: Verdict,
) -> Result<Got, Got>
    requires peers { vec_len kept.old.peers < vec_capacity kept.old.peers }
    requires queries { 0 < spare kept.old.queries }
    requires log { vec_len kept.old.log < vec_capacity kept.old.log }
    ensures carries { Carries server bytes verdict result (W.log world.old) (W.log world.new)
        (state_of kept.old) (state_of kept.new) }
    ensures answer { IfOk result IsWhole }
    ensures waits { W.wait_faults world.new ≡ W.wait_faults world.old }
    ensures reading { W.reading world.new ≡ W.reading world.old }
    ensures origin { W.origin world.new ≡ W.origin world.old }
{
    match verdict {
        Verdict::Pass => hand_on(kept, server, bytes),
        Verdict::Lose => {
            tell(
                kept,
                WorldCall::Receive {
                    got: Got::Datagram(server, Bytes::new(kept.alloc)),
                },
            );
            Ok(Got::Datagram(server, Bytes::new(kept.alloc)))
        }
        Verdict::Teach(peer) => teach(kept, server, bytes, peer),
        Verdict::Again(peer, query, sent) => {
            match world.send(server, sent.as_slice()) {
                Ok(outcome) => Ok(note_again(kept, server, peer, query, outcome)),
                Err(NoMemory) => Err(Got::Datagram(server, bytes)),
            }
        }
    }
}

/// Hands on a datagram.
fn hand_on(kept: &mut Kept, server: u32, bytes: Bytes) -> Result<Got, Got>
    requires { vec_len kept.old.log < vec_capacity kept.old.log }
    ensures ok { IfOk result (λ got. (got ≡ Datagram server bytes)
        × (state_of kept.new ≡ told (Receive got) (state_of kept.old))) }
    ensures err { IfErr result (λ back. (back ≡ Datagram server bytes)
        × (state_of kept.new ≡ state_of kept.old)) }
{
    match Bytes::of(kept.alloc, bytes.as_slice()) {
        Ok(copy) => {
            tell(
                kept,
                WorldCall::Receive {
                    got: Got::Datagram(server, copy),
                },
            );
            Ok(Got::Datagram(server, bytes))
        }
        Err(NoMemory) => Err(Got::Datagram(server, bytes)),
    }
}

/// Hands on a datagram, and keeps the cookie that it teaches.
fn teach(kept: &mut Kept, server: u32, bytes: Bytes, peer: Peer) -> Result<Got, Got>
    requires peers { vec_len kept.old.peers < vec_capacity kept.old.peers }
    requires log { vec_len kept.old.log < vec_capacity kept.old.log }
    ensures ok { IfOk result (λ got. (got ≡ Datagram server bytes)
        × (state_of kept.new ≡ told (Receive got) (with_cookie peer (state_of kept.old)))) }
    ensures err { IfErr result (λ back. (back ≡ Datagram server bytes)
        × (state_of kept.new ≡ state_of kept.old)) }
{
    match Bytes::of(kept.alloc, bytes.as_slice()) {
        Ok(copy) => {
            put_peer(&mut kept.peers, peer);
            tell(
                kept,
                WorldCall::Receive {
                    got: Got::Datagram(server, copy),
                },
            );
            Ok(Got::Datagram(server, bytes))
        }
        Err(NoMemory) => Err(Got::Datagram(server, bytes)),
    }
}

/// Keeps the cookie and the query of a datagram whose query was sent again, and answers what its caller is given. It takes no
/// memory.
fn note_again(kept: &mut Kept, server: u32, peer: Peer, query: Query, outcome: Sent) -> Got
    requires peers { vec_len kept.old.peers < vec_capacity kept.old.peers }
    requires queries { 0 < spare kept.old.queries }
    requires log { vec_len kept.old.log < vec_capacity kept.old.log }
    ensures given { result ≡ meaning.given_again server outcome }
    ensures state { state_of kept.new
        ≡ told (Receive (meaning.given_again server outcome)) (with_repeat peer query (state_of kept.old)) }
{
    put_peer(&mut kept.peers, peer);
    put_query(&mut kept.queries, Some(query));
    let got = given_again(kept.alloc, server, outcome);
    tell(kept, WorldCall::Receive { got });
    given_again(kept.alloc, server, outcome)
}

/// What its caller is given for a datagram whose query was sent again.
fn given_again(alloc: Global, server: u32, outcome: Sent) -> Got
    ensures { result ≡ meaning.given_again server outcome }
{
    match outcome {
        Sent::Sent => Got::Datagram(server, Bytes::new(alloc)),
        Sent::Failed => Got::Failed(server, 0),
    }
}
