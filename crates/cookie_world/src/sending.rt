//! Sending a query with the cookie of its server.

ghost use Rattle.std.specs.Prelude.{◌≡◌, IfOk};
ghost use Rattle.net_world.specs.declared.log.WorldCall.TheVariants.{Send};
ghost use Rattle.cookie_world.specs.Rounds.{Goes};
ghost use Rattle.cookie_world.specs.Sending as meaning;
ghost use Rattle.cookie_world.specs.State.{state_of};

use crate::state::{Kept, Peer, Query, find_peer, make_room, put_query, tell};
use dns_cookie::{Way, cookied};
use item_list::{Bytes, NoMemory};
use net_world::{Sent, World, WorldCall};
use std::alloc::Global;
use std::mem;

/// A query as it goes on the wire.
#[derive(Debug, Drop)]
pub struct Wire {
    pub bytes: Bytes,
    pub way: Way,
}

/// Sends the query, with the cookie of its server where it can carry one. All memory is taken before the World is called.
pub(crate) fn send_with<W: World>(
    world: &mut W,
    kept: &mut Kept,
    server: u32,
    bytes: &[u8],
) -> Result<Sent, NoMemory>
    ensures goes { Goes (λ sent. Send server bytes.now sent) result (W.log world.old) (W.log world.new)
        (state_of kept.old) (state_of kept.new) }
    ensures waits { W.wait_faults world.new ≡ W.wait_faults world.old }
    ensures reading { W.reading world.new ≡ W.reading world.old }
    ensures origin { W.origin world.new ≡ W.origin world.old }
{
    make_room(kept)?;
    let wire = wire_for(kept.alloc, &kept.peers, server, bytes)?;
    let room = mem::replace(&mut kept.spare, Vec::new(kept.alloc));
    let query = noted(room, server, bytes, wire.way)?;
    let copy = Bytes::of(kept.alloc, bytes)?;
    let sent = world.send(server, wire.bytes.as_slice())?;
    kept.spare = wire.bytes.into_vec();
    put_query(&mut kept.queries, query);
    tell(
        kept,
        WorldCall::Send {
            server,
            bytes: copy,
            sent,
        },
    );
    Ok(sent)
}

/// How the query goes to this server.
fn wire_for(alloc: Global, peers: &[Peer], server: u32, bytes: &[u8]) -> Result<Wire, NoMemory>
    ensures { IfOk result (λ wire. wire ≡ meaning.wire_of peers.now server bytes.now) }
{
    let sent = match find_peer(peers, server) {
        Some(peer) => cookied(alloc, bytes, peer.cookie.as_slice())?,
        None => None,
    };
    wire_by(alloc, bytes, sent)
}

/// The query with its cookie, or as it is.
fn wire_by(alloc: Global, bytes: &[u8], sent: Option<Bytes>) -> Result<Wire, NoMemory>
    ensures { IfOk result (λ wire. wire ≡ meaning.wire_by bytes.now sent) }
{
    Ok(match sent {
        Some(bytes) => Wire {
            bytes,
            way: Way::Cookied,
        },
        None => Wire {
            bytes: Bytes::of(alloc, bytes)?,
            way: Way::Plain,
        },
    })
}

/// What is noted of a query that goes in this way, if it has an identifier. Its copy takes over this memory, whatever is in it.
fn noted(room: Vec<u8>, server: u32, bytes: &[u8], way: Way) -> Result<Option<Query>, NoMemory>
    ensures { IfOk result (λ query. query ≡ meaning.noted server bytes.now way) }
{
    let Some(id) = id_of(bytes) else {
        return Ok(None);
    };
    Ok(Some(Query {
        server,
        id,
        bytes: copied_into(room, bytes)?,
        way,
    }))
}

/// A copy of the bytes in this memory, whatever is in it.
fn copied_into(room: Vec<u8>, bytes: &[u8]) -> Result<Bytes, NoMemory>
    ensures { IfOk result (λ copy. copy ≡ bytes.now) }
{
    let mut copy = room;
    copy.clear();
    copy.extend_from_slice(bytes)?;
    Ok(Bytes::from_vec(copy))
}

/// The identifier of a query: its first two bytes (RFC 1035, section 4.1.1).
fn id_of(bytes: &[u8]) -> Option<u16>
    ensures { result ≡ meaning.id_of bytes.now }
{
    let [high, low, ..] = bytes else {
        return None;
    };
    Some(u16::from_be_bytes([*high, *low]))
}
