//! Many queries, one after another, each with its reply.

use super::near::Near;
use cookie_world::CookieWorld;
use item_list::NoMemory;
use net_addr::{Addr, ServerAddr};
use net_world::{Got, World};
use std::alloc::Global;

/// A query for the address of example.com with an OPT record (RFC 1035, section 4.1; RFC 6891, section 6.1.2).
const QUERY: &[u8; 40] =
    b"\0\0\x01\0\0\x01\0\0\0\0\0\x01\x07example\x03com\0\0\x01\0\x01\0\0\x29\x04\xd0\0\0\0\0\0\0";

/// The server of the queries: 192.0.2.53, port 53.
const SERVER: ServerAddr = ServerAddr {
    address: Addr::V4(0xc000_0235),
    port: 53,
};

/// How many queries are sent, and how many identifiers they have in turn.
#[derive(Clone, Copy)]
pub struct Counts {
    pub queries: u64,
    pub ids: u64,
}

/// Sends the queries through a network with cookies, and answers how many replies came.
pub fn with_cookies(alloc: Global, counts: Counts) -> Result<u64, NoMemory> {
    exchange(&mut CookieWorld::make(alloc, Near::make(alloc)), counts)
}

/// The same through the network alone.
pub fn bare(alloc: Global, counts: Counts) -> Result<u64, NoMemory> {
    exchange(&mut Near::make(alloc), counts)
}

/// Sends the queries, receives a reply behind each, and answers how many replies came with bytes.
fn exchange<W: World>(world: &mut W, counts: Counts) -> Result<u64, NoMemory> {
    world.serve(0, &SERVER)?;
    let mut query = *QUERY;
    let mut came = 0u64;
    for number in 0..counts.queries {
        let id = number % counts.ids.clamp(1, 65_536);
        query[0] = (id / 256 % 256) as u8;
        query[1] = (id % 256) as u8;
        let _sent = world.send(0, &query)?;
        if has_bytes(&world.receive()?) {
            came = came.saturating_add(1);
        }
    }
    Ok(came)
}

/// Whether a datagram came that has bytes.
fn has_bytes(got: &Got) -> bool {
    match got {
        Got::Datagram(_, bytes) => !bytes.as_slice().is_empty(),
        Got::Piece(_, _) | Got::Ended(_) | Got::Nothing | Got::Failed(_, _) => false,
    }
}
