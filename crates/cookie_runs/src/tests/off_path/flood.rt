//! A server that answers one query with a good reply among many forged ones.

use super::SERVER;
use super::messages::{
    FORGED_ADDRESS, GOOD_ADDRESS, SERVER_COOKIE, client_cookie, cookie_option, has_address, query,
    reply,
};
use item_list::{Bytes, NoMemory};
use net_world::{Got, World};
use std::alloc::Global;
use std::net::{SocketAddr, UdpSocket};
use std::test::Fail;

/// The server's socket, and how many forged replies a query has.
#[derive(Clone, Copy)]
pub struct Flood<'a> {
    pub far: &'a UdpSocket,
    pub forged: u16,
}

/// What came: good replies, forged ones, and datagrams without a byte.
#[derive(Clone, Copy)]
pub struct Tally {
    pub good: u64,
    pub forged: u64,
    pub dropped: u64,
}

/// Before anything came.
pub const NOTHING: Tally = Tally {
    good: 0,
    forged: 0,
    dropped: 0,
};

/// A query that came: from where, and its client cookie, no byte where it has none.
#[derive(Drop)]
struct Asked {
    from: SocketAddr,
    client: Vec<u8>,
}

/// Sends the query with this identifier, and takes it at the server.
fn ask<W: World>(alloc: Global, world: &mut W, flood: &Flood<'_>, id: u16) -> Result<Asked, Fail> {
    world.send(SERVER, query(alloc, id)?.as_slice())?;
    let mut heard = [0u8; 512];
    let (len, from) = flood.far.recv_from(&mut heard)?;
    let query = heard.get(..len).unwrap_or(&[]);
    let client = client_cookie(query).unwrap_or(&[]);
    Ok(Asked {
        from,
        client: Vec::from_slice(alloc, client)?,
    })
}

/// Answers the query well: with its client cookie and the server's own (RFC 7873, section 5.2.3).
fn answer(alloc: Global, flood: &Flood<'_>, id: u16, asked: &Asked) -> Result<(), Fail> {
    let option = cookie_option(alloc, asked.client.as_slice(), SERVER_COOKIE)?;
    let good = reply(alloc, id, GOOD_ADDRESS, option.as_slice())?;
    flood.far.send_to(good.as_slice(), asked.from)?;
    Ok(())
}

/// The options of a forged reply: none, a client cookie that is guessed, the same with a server cookie, and the server cookie
/// alone, in turn.
fn forged_options(alloc: Global, number: u16) -> Result<Vec<u8>, NoMemory> {
    let [high, low] = number.to_be_bytes();
    let guess = [1, 2, 3, 4, 5, 6, high, low];
    match number % 4 {
        0 => Ok(Vec::new(alloc)),
        1 => cookie_option(alloc, &guess, &[]),
        2 => cookie_option(alloc, &guess, SERVER_COOKIE),
        _ => cookie_option(alloc, SERVER_COOKIE, &[]),
    }
}

/// Sends so many forged replies to the query.
fn forge(alloc: Global, flood: &Flood<'_>, id: u16, asked: &Asked, count: u16) -> Result<(), Fail> {
    for number in 0..count {
        let options = forged_options(alloc, number)?;
        let forged = reply(alloc, id, FORGED_ADDRESS, options.as_slice())?;
        flood.far.send_to(forged.as_slice(), asked.from)?;
    }
    Ok(())
}

/// Whether the first query, which is answered well alone, has its reply: that teaches the server cookie.
pub fn taught<W: World>(alloc: Global, world: &mut W, flood: &Flood<'_>) -> Result<bool, Fail> {
    let asked = ask(alloc, world, flood, 0)?;
    answer(alloc, flood, 0, &asked)?;
    let mut tally = NOTHING;
    hear(world, 1, &mut tally)?;
    Ok(tally.good == 1)
}

/// A query whose good reply comes in the middle of the forged ones: what came of them is counted.
pub fn flooded<W: World>(
    alloc: Global,
    world: &mut W,
    flood: &Flood<'_>,
    id: u16,
    tally: &mut Tally,
) -> Result<(), Fail> {
    let asked = ask(alloc, world, flood, id)?;
    let half = flood.forged / 2;
    forge(alloc, flood, id, &asked, half)?;
    answer(alloc, flood, id, &asked)?;
    forge(alloc, flood, id, &asked, half)?;
    hear(world, flood.forged.saturating_add(1), tally)?;
    Ok(())
}

/// Takes so many datagrams, within some seconds, and counts them.
fn hear<W: World>(world: &mut W, count: u16, tally: &mut Tally) -> Result<(), NoMemory> {
    let mut missing = count;
    for _ in 0..2_000 {
        if missing == 0 {
            return Ok(());
        }
        let got = world.receive()?;
        if is_nothing(&got) {
            let now = world.now()?;
            world.wait(now.saturating_add(20))?;
        } else {
            missing = missing.saturating_sub(1);
            count_one(&got, tally);
        }
    }
    Ok(())
}

/// Whether nothing came.
fn is_nothing(got: &Got) -> bool {
    match got {
        Got::Nothing => true,
        Got::Datagram(_, _) | Got::Piece(_, _) | Got::Ended(_) | Got::Failed(_, _) => false,
    }
}

/// Counts what came.
fn count_one(got: &Got, tally: &mut Tally) {
    match got {
        Got::Datagram(server, bytes) if *server == SERVER => count_datagram(bytes, tally),
        Got::Datagram(_, _) | Got::Piece(_, _) | Got::Ended(_) | Got::Nothing | Got::Failed(_, _) =>
            {}
    }
}

/// Counts a datagram of the server.
fn count_datagram(bytes: &Bytes, tally: &mut Tally) {
    if bytes.as_slice().is_empty() {
        tally.dropped = tally.dropped.saturating_add(1);
    } else if has_address(bytes.as_slice(), GOOD_ADDRESS) {
        tally.good = tally.good.saturating_add(1);
    } else if has_address(bytes.as_slice(), FORGED_ADDRESS) {
        tally.forged = tally.forged.saturating_add(1);
    }
}
