//! What becomes of a datagram, with all that it takes.

ghost use Rattle.std.specs.Prelude.{◌≡◌, ◌<◌, IfOk};
ghost use Rattle.cookie_world.specs.Verdict as meaning;

use crate::state::{Peer, Query, find_peer, find_query};
use dns_cookie::{CookieReply, Judgement, Way, cookied, judge, read_reply};
use indexmap::IndexMap;
use item_list::{Bytes, NoMemory};
use std::alloc::Global;

/// The length of a client cookie (RFC 7873, section 4).
const CLIENT_LEN: usize = 8;

/// What becomes of a datagram, with all that it takes.
#[derive(Debug, Drop)]
pub enum Verdict {
    /// It is handed on.
    Pass,
    /// It is dropped.
    Lose,
    /// It is handed on, and its server has this cookie now.
    Teach(Peer),
    /// It is dropped, its server has this cookie now, and its query, which is repeated then, is sent again with these bytes.
    Again(Peer, Query, Bytes),
}

/// What becomes of a datagram of this server, where these servers were told and these queries sent.
pub(crate) fn judge_datagram(
    alloc: Global,
    peers: &[Peer],
    queries: &IndexMap<u64, Query>,
    server: u32,
    bytes: &[u8],
) -> Result<Verdict, NoMemory>
    ensures { IfOk result (λ verdict. verdict ≡ meaning.verdict_of peers.now queries.now.entries server bytes.now) }
{
    match read_reply(alloc, bytes)? {
        Some(reply) => verdict_on(alloc, peers, queries, server, reply),
        None => Ok(Verdict::Pass),
    }
}

/// The same of a reply that could be read.
fn verdict_on(
    alloc: Global,
    peers: &[Peer],
    queries: &IndexMap<u64, Query>,
    server: u32,
    reply: CookieReply,
) -> Result<Verdict, NoMemory>
    ensures { IfOk result (λ verdict. verdict ≡ meaning.verdict_on peers.now queries.now.entries server reply) }
{
    let Some(query) = find_query(queries, server, reply.id) else {
        return Ok(Verdict::Pass);
    };
    let Some(peer) = find_peer(peers, server) else {
        return Ok(Verdict::Pass);
    };
    verdict_by(alloc, query, peer, reply)
}

/// The same, where this is the reply's query, and this its server.
fn verdict_by(
    alloc: Global,
    query: &Query,
    peer: &Peer,
    reply: CookieReply,
) -> Result<Verdict, NoMemory>
    ensures { IfOk result (λ verdict. verdict ≡ meaning.verdict_by query.now peer.now reply) }
{
    let client = client_of(peer.cookie.as_slice());
    let known = peer.cookie.len() > CLIENT_LEN;
    let judgement = judge(query.way, client, known, Some(&reply));
    let taught = taught_peer(alloc, peer.server, reply);
    match judgement {
        Judgement::HandOn => Ok(Verdict::Pass),
        Judgement::Discard => Ok(Verdict::Lose),
        Judgement::Learn => Ok(Verdict::Teach(taught)),
        Judgement::Repeat => again(alloc, query, taught),
    }
}

/// The client's part of a cookie: its first 8 bytes.
fn client_of(cookie: &[u8]) -> &[u8]
    ensures { result.now ≡ meaning.client_of cookie.now }
{
    if cookie.len() < CLIENT_LEN {
        return cookie;
    }
    let (client, _) = cookie.split_at(CLIENT_LEN);
    client
}

/// The server with the cookie of this reply.
fn taught_peer(alloc: Global, server: u32, reply: CookieReply) -> Peer
    ensures { result ≡ meaning.taught_peer server reply }
{
    Peer {
        server,
        cookie: match reply.cookie {
            Some(cookie) => cookie,
            None => Bytes::new(alloc),
        },
    }
}

/// The query is sent again with this server's cookie. One that carried a cookie can carry any.
fn again(alloc: Global, query: &Query, peer: Peer) -> Result<Verdict, NoMemory>
    ensures { IfOk result (λ verdict. verdict ≡ meaning.again query.now peer) }
{
    let query = repeated(alloc, query)?;
    Ok(
        match cookied(alloc, query.bytes.as_slice(), peer.cookie.as_slice())? {
            Some(sent) => Verdict::Again(peer, query, sent),
            None => Verdict::Teach(peer),
        },
    )
}

/// The same query, repeated.
fn repeated(alloc: Global, query: &Query) -> Result<Query, NoMemory>
    ensures { IfOk result (λ same. same ≡ meaning.repeated query.now) }
{
    Ok(Query {
        server: query.server,
        id: query.id,
        bytes: Bytes::of(alloc, query.bytes.as_slice())?,
        way: Way::Repeated,
    })
}
