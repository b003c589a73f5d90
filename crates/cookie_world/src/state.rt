//! What a World with cookies keeps.

ghost use Rattle.std.specs.Prelude.{◌≡◌, ◌<◌, filter, not, IfOk, OnOk, vec_len, vec_capacity};
ghost use Rattle.std.specs.HashMap.{spare};
ghost use Rattle.std.specs.Option.{option_copied};
ghost use Rattle.net_world.specs.Cause as cause;
ghost use Rattle.cookie_world.specs.Rounds.{told};
ghost use Rattle.cookie_world.specs.Rounds as rounds;
ghost use Rattle.cookie_world.specs.State as meaning;
ghost use Rattle.cookie_world.specs.State.{state_of};

use dns_cookie::Way;
use indexmap::IndexMap;
use item_list::{Bytes, NoMemory};
use net_world::{Got, Sent, WorldCall, Wrote, raise};
use std::alloc::Global;

/// A server, and the cookie that queries to it carry.
#[derive(Debug, Drop)]
pub struct Peer {
    pub server: u32,
    /// 8 bytes of the client's, and behind them the server's, once they are known (RFC 7873, section 4).
    pub cookie: Bytes,
}

/// The last query with its identifier that was sent to its server.
#[derive(Debug, Drop)]
pub struct Query {
    pub server: u32,
    pub id: u16,
    /// The query as it was handed to `send`.
    pub bytes: Bytes,
    pub way: Way,
}

/// What a World with cookies keeps beside the World that it stands around.
#[derive(Drop)]
pub struct Kept {
    pub alloc: Global,
    /// The servers that were told.
    pub peers: Vec<Peer>,
    /// The last query of each server and identifier, under its `query_key`.
    pub queries: IndexMap<u64, Query>,
    /// What came, and was neither judged nor handed on for want of memory: a datagram or a piece.
    pub held: Option<Got>,
    /// Memory in which a query went out. The next one that is noted takes it over.
    pub spare: Vec<u8>,
    /// How often a failure was told, waits apart. It stays at its greatest.
    pub failures: u64,
    /// The calls with their answers.
    pub log: Vec<WorldCall>,
}

/// Makes room for one more server, query and call.
pub(crate) fn make_room(kept: &mut Kept) -> Result<(), NoMemory>
    ensures same { state_of kept.new ≡ state_of kept.old }
    ensures peers { OnOk result (vec_len kept.new.peers < vec_capacity kept.new.peers) }
    ensures queries { OnOk result (0 < spare kept.new.queries) }
    ensures log { OnOk result (vec_len kept.new.log < vec_capacity kept.new.log) }
{
    kept.peers.reserve(1)?;
    kept.queries.reserve(1)?;
    kept.log.reserve(1)?;
    Ok(())
}

/// The server, if it was told.
pub(crate) fn find_peer(peers: &[Peer], server: u32) -> Option<&Peer>
    ensures { option_copied result ≡ meaning.peer_of server peers.now }
{
    peers.iter().find(|peer| peer.server == server)
}

/// What the last query of this server and identifier is kept under.
fn query_key(server: u32, id: u16) -> u64
    ensures { result ≡ meaning.query_key server id }
{
    server as u64 * 65_536 + id as u64
}

/// The last query of this server and identifier.
pub(crate) fn find_query(queries: &IndexMap<u64, Query>, server: u32, id: u16) -> Option<&Query>
    ensures { option_copied result ≡ meaning.last_query server id queries.now.entries }
{
    queries.get(&query_key(server, id))
}

/// Puts the server in the place of the one with its number.
pub(crate) fn put_peer(peers: &mut Vec<Peer>, peer: Peer)
    requires { vec_len peers.old < vec_capacity peers.old }
    ensures { peers.new.items ≡ meaning.with_peer peer peers.old.items }
{
    drop_peer(peers, peer.server);
    peers.push_reserved(peer);
}

/// Drops the server with this number.
fn drop_peer(peers: &mut Vec<Peer>, server: u32)
    ensures dropped { peers.new.items ≡ filter (λ peer. not (meaning.is_server server peer)) peers.old.items }
    ensures room { vec_len peers.old < vec_capacity peers.old → vec_len peers.new < vec_capacity peers.new }
{
    peers.retain(|peer| peer.server != server);
}

/// Puts the query, if there is one, in the place of the one with its server and identifier.
pub(crate) fn put_query(queries: &mut IndexMap<u64, Query>, query: Option<Query>)
    requires { 0 < spare queries.old }
    ensures { queries.new.entries ≡ meaning.with_noted query queries.old.entries }
{
    let Some(query) = query else {
        return;
    };
    match queries.insert(query_key(query.server, query.id), query) {
        Ok(_before) => {}
        // There is room for one more.
        Err(_) => unreachable!(),
    }
}

/// Adds the call to the log, and counts it where it tells a failure. It takes no memory.
pub(crate) fn tell(kept: &mut Kept, call: WorldCall)
    requires { vec_len kept.old.log < vec_capacity kept.old.log }
    ensures { state_of kept.new ≡ told call (state_of kept.old) }
{
    kept.failures = raise(tells_failure(&call), kept.failures);
    kept.log.push_reserved(call);
}

/// Whether it tells a failure, and isn't a wait.
fn tells_failure(call: &WorldCall) -> bool
    ensures { result ≡ rounds.tells_failure call.now }
{
    match call {
        WorldCall::Serve { .. } | WorldCall::Now { .. } | WorldCall::Word { .. } => false,
        WorldCall::Send { sent, .. } | WorldCall::Connect { sent, .. } => is_not_sent(*sent),
        WorldCall::Write { wrote, .. } => is_not_written(*wrote),
        WorldCall::Receive { got } => is_link_failed(got),
        WorldCall::Close { .. } | WorldCall::Wait { .. } => false,
    }
}

/// Whether a datagram or a link failed.
fn is_not_sent(sent: Sent) -> bool
    ensures { result ≡ cause.is_not_sent sent }
{
    match sent {
        Sent::Sent => false,
        Sent::Failed => true,
    }
}

/// Whether a write failed.
fn is_not_written(wrote: Wrote) -> bool
    ensures { result ≡ cause.is_not_written wrote }
{
    match wrote {
        Wrote::Count(_) => false,
        Wrote::Failed => true,
    }
}

/// Whether what was received tells a failure.
fn is_link_failed(got: &Got) -> bool
    ensures { result ≡ cause.is_link_failed got.now }
{
    match got {
        Got::Datagram(_, _) | Got::Piece(_, _) | Got::Ended(_) | Got::Nothing => false,
        Got::Failed(_, _) => true,
    }
}
