//! The network in memory, and what it loses.

use net_world::{Got, World, Wrote};
use std::alloc::Global;
use std::test::Fail;
use test_nameserver::*;

/// A query for the address of h0.load.test., without RD (RFC 1035, section 4.1), and its reply.
const QUERY: &[u8] = b"\x12\x34\0\0\0\x01\0\0\0\0\0\0\x02h0\x04load\x04test\0\0\x01\0\x01";

const REPLY: &[u8] =
    b"\x12\x34\x84\x80\0\x01\0\x01\0\0\0\0\x02h0\x04load\x04test\0\0\x01\0\x01\x02h0\x04load\x04test\0\0\x01\0\x01\0\0\0\x3c\0\x04\x0a\0\0\0";

/// The same for h1.load.test., whose question gets the number 1.
const OTHER: &[u8] = b"\x12\x34\0\0\0\x01\0\0\0\0\0\0\x02h1\x04load\x04test\0\0\x01\0\x01";

const OTHER_REPLY: &[u8] =
    b"\x12\x34\x84\x80\0\x01\0\x01\0\0\0\0\x02h1\x04load\x04test\0\0\x01\0\x01\x02h1\x04load\x04test\0\0\x01\0\x01\0\0\0\x3c\0\x04\x0a\0\0\x01";

/// A network of so many hosts that loses by this seed.
fn peer(alloc: Global, hosts: u8, seed: u16) -> Result<PeerWorld, Fail> {
    Ok(PeerWorld::make(alloc, Zone::load(alloc, hosts as u64)?, seed)?)
}

/// The next three words.
fn next_words<W: World>(world: &mut W) -> Result<[u16; 3], NoMemory> {
    Ok([world.word()?, world.word()?, world.word()?])
}

/// The first three words by this seed.
fn first_words(alloc: Global, seed: u16) -> Result<[u16; 3], Fail> {
    let mut world = peer(alloc, 0, seed)?;
    Ok(next_words(&mut world)?)
}

// A word is 40503 times its number, and the seed, of which the lowest 16 bits are taken.
#[test]
fn words_are_drawn(rt: HostRuntime) -> Result<(), Fail> {
    assert!(rt; first_words(rt.alloc(), 7)? == [7, 40_510, 15_477]);
    Ok(())
}

/// Whether nothing is received.
fn hears_nothing<W: World>(world: &mut W) -> Result<bool, NoMemory> {
    Ok(world.receive()? == Got::Nothing)
}

/// Whether nothing comes back from a datagram.
fn is_lost<W: World>(world: &mut W, query: &[u8]) -> Result<bool, NoMemory> {
    world.send(0, query)?;
    hears_nothing(world)
}

/// Whether a datagram is replied to so.
fn is_replied<W: World>(world: &mut W, query: &[u8], reply: &[u8]) -> Result<bool, NoMemory> {
    world.send(0, query)?;
    Ok(match world.receive()? {
        Got::Datagram(0, bytes) => bytes.as_slice() == reply,
        _ => false,
    })
}

/// The clock behind a wait.
fn waited<W: World>(world: &mut W, until: u64) -> Result<u64, NoMemory> {
    world.wait(until)?;
    world.now()
}

/// Whether question 0 loses its first query, and question 1 does not.
fn loses_the_first<W: World>(world: &mut W) -> Result<bool, NoMemory> {
    Ok(
        is_lost(world, QUERY)?
            && is_replied(world, QUERY, REPLY)?
            && is_replied(world, OTHER, OTHER_REPLY)?
            && hears_nothing(world)?
            && waited(world, 2000)? == 2000,
    )
}

/// Whether a network of two hosts does so by this seed.
fn loses_by(alloc: Global, seed: u16) -> Result<bool, Fail> {
    let mut world = peer(alloc, 2, seed)?;
    Ok(loses_the_first(&mut world)?)
}

// With seed 0 question 0 loses its first query and question 1 does not.
#[test]
fn one_first_query_in_three_is_lost(rt: HostRuntime) -> Result<(), Fail> {
    assert!(rt; loses_by(rt.alloc(), 0)?);
    Ok(())
}

/// The query behind its length and the length of the next one, and the reply behind its length (RFC 1035, section 4.2.2).
const FIRST_WRITE: &[u8] =
    b"\0\x1e\x12\x34\0\0\0\x01\0\0\0\0\0\0\x02h0\x04load\x04test\0\0\x01\0\x01\0\x1e";

const REPLY_FRAME: &[u8] =
    b"\0\x3a\x12\x34\x84\x80\0\x01\0\x01\0\0\0\0\x02h0\x04load\x04test\0\0\x01\0\x01\x02h0\x04load\x04test\0\0\x01\0\x01\0\0\0\x3c\0\x04\x0a\0\0\0";

/// Whether all of these bytes are taken by link 7.
fn is_taken<W: World>(world: &mut W, bytes: &[u8]) -> Result<bool, NoMemory> {
    Ok(match world.write(7, bytes)? {
        Wrote::Count(count) => count == bytes.len(),
        Wrote::Failed => false,
    })
}

/// Whether these bytes are received of link 7.
fn is_piece<W: World>(world: &mut W, bytes: &[u8]) -> Result<bool, NoMemory> {
    Ok(match world.receive()? {
        Got::Piece(7, piece) => piece.as_slice() == bytes,
        _ => false,
    })
}

/// Whether nothing is received, once link 7 is closed.
fn closes<W: World>(world: &mut W) -> Result<bool, NoMemory> {
    world.close(7)?;
    hears_nothing(world)
}

/// Whether a link has one reply behind a query and the length of the next, which is whole with another write.
fn replies_over_link<W: World>(world: &mut W) -> Result<bool, NoMemory> {
    world.connect(0, 7)?;
    Ok(
        is_taken(world, FIRST_WRITE)?
            && is_piece(world, REPLY_FRAME)?
            && hears_nothing(world)?
            && is_taken(world, OTHER)?
            && closes(world)?,
    )
}

/// Whether a network of two hosts does so.
fn keeps_links(alloc: Global) -> Result<bool, Fail> {
    let mut world = peer(alloc, 2, 0)?;
    Ok(replies_over_link(&mut world)?)
}

// Over a link nothing is lost: one query and the length of another in one write, and its bytes in the next.
#[test]
fn links_lose_nothing(rt: HostRuntime) -> Result<(), Fail> {
    assert!(rt; keeps_links(rt.alloc())?);
    Ok(())
}

/// Whether nothing comes back from a datagram that is no query, from a link that isn't open, and from an open one's message
/// that is no query.
fn passes_others_over<W: World>(world: &mut W) -> Result<bool, NoMemory> {
    let unheard = is_lost(world, b"\0")? && is_taken(world, FIRST_WRITE)?;
    world.connect(0, 7)?;
    Ok(unheard && is_taken(world, b"\0\x01x")? && closes(world)?)
}

/// Whether a network of two hosts does so.
fn answers_queries_alone(alloc: Global) -> Result<bool, Fail> {
    let mut world = peer(alloc, 2, 0)?;
    Ok(passes_others_over(&mut world)?)
}

#[test]
fn what_is_no_query_is_passed_over(rt: HostRuntime) -> Result<(), Fail> {
    assert!(rt; answers_queries_alone(rt.alloc())?);
    Ok(())
}
