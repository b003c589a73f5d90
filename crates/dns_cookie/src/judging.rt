//! The rules by which a datagram is judged by its cookie.

ghost use Rattle.std.specs.Prelude.{◌≡◌};
ghost use Rattle.std.specs.Option.{option_copied};
ghost use Rattle.dns_cookie.specs.Judging as meaning;

use crate::adding::COOKIE_MOST;
use crate::reply::CookieReply;

/// The length of a client cookie (RFC 7873, section 4).
pub(crate) const CLIENT_LEN: usize = 8;

/// The least bytes of a cookie with a server's: 8 of the client's and 8 of the server's (RFC 7873, section 4).
const WITH_SERVER_LEAST: usize = 16;

/// The response code that asks for the query again (RFC 7873, section 8).
const BADCOOKIE: u16 = 23;

/// How the last query with a reply's identifier went to its server.
#[derive(Clone, Copy, Debug, PartialEq, Eq)]
pub enum Way {
    /// There was no such query.
    Never,
    /// It went as it is, without a cookie.
    Plain,
    /// It went with a cookie, once.
    Cookied,
    /// It went with a cookie, and again with the server cookie of a reply that asked so.
    Repeated,
}

/// What becomes of a datagram.
#[derive(Clone, Copy, Debug, PartialEq, Eq)]
pub enum Judgement {
    /// It is handed on.
    HandOn,
    /// It is dropped.
    Discard,
    /// It is handed on, and what stands behind the first 8 bytes of its cookie is the server cookie.
    Learn,
    /// What stands behind the first 8 bytes of its cookie is the server cookie; it is dropped, and its query sent again with
    /// that.
    Repeat,
}

/// What becomes of a reply of a server whose client cookie is this, by the first rule that fits (RFC 7873, section 5.3, leaves
/// them open):
///
/// 1. it can't be read, or its query was never sent there, or went without a cookie: it is handed on;
/// 2. it has no cookie: it is dropped where a server cookie is known, else handed on;
/// 3. its first cookie hasn't 8 or 16 to 40 bytes, or doesn't begin with the client cookie: it is dropped;
/// 4. it has 16 bytes or more: the rest becomes the server cookie; where the response code is BADCOOKIE and the query wasn't
///    repeated yet, it is sent again and the reply is dropped;
/// 5. it is handed on.
pub fn judge(way: Way, client: &[u8], known: bool, reply: Option<&CookieReply>) -> Judgement
    ensures { result ≡ meaning.judged way client.now known (option_copied reply.entry) }
{
    match reply {
        None => Judgement::HandOn,
        Some(reply) => judge_reply(way, client, known, reply),
    }
}

/// The same of a reply that could be read.
pub(crate) fn judge_reply(way: Way, client: &[u8], known: bool, reply: &CookieReply) -> Judgement
    ensures { result ≡ meaning.judged_reply way client.now known reply.now }
{
    match way {
        Way::Never | Way::Plain => Judgement::HandOn,
        Way::Cookied => judge_cookie(true, client, known, reply),
        Way::Repeated => judge_cookie(false, client, known, reply),
    }
}

/// Rules 2 to 5.
fn judge_cookie(may_repeat: bool, client: &[u8], known: bool, reply: &CookieReply) -> Judgement
    ensures { result ≡ meaning.judged_cookie may_repeat client.now known reply.now.rcode reply.now.cookie }
{
    match &reply.cookie {
        None if known => Judgement::Discard,
        None => Judgement::HandOn,
        Some(cookie) if !is_ours(client, cookie.as_slice()) => Judgement::Discard,
        Some(cookie) => judge_own(may_repeat, reply.rcode, cookie.as_slice()),
    }
}

/// Rules 4 and 5.
fn judge_own(may_repeat: bool, rcode: u16, cookie: &[u8]) -> Judgement
    ensures { result ≡ meaning.judged_own may_repeat rcode cookie.now }
{
    if cookie.len() == CLIENT_LEN {
        Judgement::HandOn
    } else if rcode == BADCOOKIE && may_repeat {
        Judgement::Repeat
    } else {
        Judgement::Learn
    }
}

/// Whether it has the length of a cookie, and begins with the client cookie.
fn is_ours(client: &[u8], cookie: &[u8]) -> bool
    ensures { result ≡ meaning.is_ours client.now cookie.now }
{
    has_length(cookie.len()) && cookie.starts_with(client)
}

/// Whether a cookie may have so many bytes.
fn has_length(len: usize) -> bool
    ensures { result ≡ meaning.has_length len }
{
    len == CLIENT_LEN || (WITH_SERVER_LEAST <= len && len <= COOKIE_MOST)
}
