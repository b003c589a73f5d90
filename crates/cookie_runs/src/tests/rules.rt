//! What becomes of a reply, rule by rule.

use super::bytes::{BAD_FRONT, REPLY_FRONT, option, with_opt};
use dns_cookie::{Judgement, Way, judge, read_reply};
use dns_message::NoMemory;
use std::alloc::Global;
use std::test::Fail;

/// The client cookie that the server was told.
const CLIENT: &[u8; 8] = b"\x01\x02\x03\x04\x05\x06\x07\x08";

/// That cookie and 33 bytes behind it; cookies of the rows are its front.
const LONG: &[u8] = b"\x01\x02\x03\x04\x05\x06\x07\x08abcdefghijklmnopqrstuvwxyzABCDEFG";

/// What becomes of a reply of these bytes to a query that went in this way.
fn judged(alloc: Global, way: Way, known: bool, reply: &[u8]) -> Result<Judgement, NoMemory> {
    let reply = read_reply(alloc, reply)?;
    Ok(judge(way, CLIENT.as_slice(), known, reply.as_ref()))
}

/// The same of a reply with this front, these upper bits of the response code, and these bytes as its cookie.
fn judged_with(
    alloc: Global,
    way: Way,
    front: &[u8],
    ext_rcode: u8,
    cookie: &[u8],
) -> Result<Judgement, NoMemory> {
    let options = option(alloc, 10, cookie)?;
    let reply = with_opt(alloc, front, ext_rcode, options.as_slice())?;
    judged(alloc, way, true, reply.as_slice())
}

/// A reply, the way in which its query went, whether a server cookie is known, and what becomes of the reply.
#[derive(Clone, Copy)]
struct Row {
    way: Way,
    known: bool,
    reply: &'static [u8],
    wanted: Judgement,
}

/// Whether that becomes of the reply of each row.
fn are_judged(alloc: Global, rows: &[Row]) -> Result<bool, Fail> {
    for row in rows {
        if judged(alloc, row.way, row.known, row.reply)? != row.wanted {
            return Ok(false);
        }
    }
    Ok(true)
}

/// A reply with another option, and one without OPT record.
const OTHER: &[u8] =
    b"\x12\x34\x81\x80\0\x01\0\0\0\0\0\x01\x07example\x03com\0\0\x01\0\x01\0\0\x29\x04\xd0\0\0\0\0\0\x0c\0\x03\0\x08\x01\x02\x03\x04\x05\x06\x07\x08";

const PLAIN: &[u8] = b"\x12\x34\x81\x80\0\x01\0\0\0\0\0\0\x07example\x03com\0\0\x01\0\x01";

const WITHOUT: &[Row] = &[
    Row {
        way: Way::Cookied,
        known: false,
        reply: OTHER,
        wanted: Judgement::HandOn,
    },
    Row {
        way: Way::Cookied,
        known: true,
        reply: OTHER,
        wanted: Judgement::Discard,
    },
    Row {
        way: Way::Cookied,
        known: false,
        reply: PLAIN,
        wanted: Judgement::HandOn,
    },
    Row {
        way: Way::Cookied,
        known: true,
        reply: PLAIN,
        wanted: Judgement::Discard,
    },
];

// A reply without a cookie is handed on until a server cookie is known: one with another option, and one without OPT record.
#[test]
fn a_reply_without_a_cookie(rt: HostRuntime) -> Result<(), Fail> {
    assert!(rt; are_judged(rt.alloc(), WITHOUT)?);
    Ok(())
}

/// A reply's front and upper bits of the response code, how many bytes of which cookie it has, the way in which its query went,
/// and what becomes of it where a server cookie is known.
#[derive(Clone, Copy)]
struct CookieRow {
    way: Way,
    front: &'static [u8; 29],
    ext_rcode: u8,
    cookie: &'static [u8],
    len: usize,
    wanted: Judgement,
}

/// Whether that becomes of the reply.
fn is_judged(alloc: Global, row: &CookieRow) -> Result<bool, Fail> {
    let Some(cookie) = row.cookie.get(..row.len) else {
        return Ok(false);
    };
    let found = judged_with(alloc, row.way, row.front.as_slice(), row.ext_rcode, cookie)?;
    Ok(found == row.wanted)
}

/// Whether that becomes of each of these replies.
fn are_judged_with(alloc: Global, rows: &[CookieRow]) -> Result<bool, Fail> {
    for row in rows {
        if !is_judged(alloc, row)? {
            return Ok(false);
        }
    }
    Ok(true)
}

/// A good reply without a cookie, to a query with one.
const GOOD: CookieRow = CookieRow {
    way: Way::Cookied,
    front: REPLY_FRONT,
    ext_rcode: 0,
    cookie: LONG,
    len: 0,
    wanted: Judgement::Discard,
};

const LENGTHS: &[CookieRow] = &[
    GOOD,
    CookieRow { len: 7, ..GOOD },
    CookieRow {
        len: 8,
        wanted: Judgement::HandOn,
        ..GOOD
    },
    CookieRow { len: 15, ..GOOD },
    CookieRow {
        len: 16,
        wanted: Judgement::Learn,
        ..GOOD
    },
    CookieRow {
        len: 40,
        wanted: Judgement::Learn,
        ..GOOD
    },
    CookieRow { len: 41, ..GOOD },
];

// A cookie has 8 bytes or 16 to 40 (RFC 7873, section 4): 7, 15 and 41 are dropped, 8 teaches nothing.
#[test]
fn a_cookie_has_its_length(rt: HostRuntime) -> Result<(), Fail> {
    assert!(rt; are_judged_with(rt.alloc(), LENGTHS)?);
    Ok(())
}

/// A client cookie that differs in its last byte, and a server cookie.
const FORGED: &[u8] = b"\x01\x02\x03\x04\x05\x06\x07\x09\x01\x02\x03\x04\x05\x06\x07\x08";

const FORGERIES: &[CookieRow] = &[
    CookieRow {
        cookie: FORGED,
        len: 16,
        ..GOOD
    },
    CookieRow {
        cookie: FORGED,
        len: 8,
        ..GOOD
    },
];

/// What becomes of a reply with both these cookies.
fn judged_with_both(alloc: Global, first: &[u8], second: &[u8]) -> Result<Judgement, Fail> {
    let mut options = option(alloc, 10, first)?.into_vec();
    options.extend_from_slice(option(alloc, 10, second)?.as_slice())?;
    let reply = with_opt(alloc, REPLY_FRONT.as_slice(), 0, options.as_slice())?;
    Ok(judged(alloc, Way::Cookied, true, reply.as_slice())?)
}

/// A good cookie: that of the server that was told, and a server cookie of 8 bytes.
const OWN: &[u8] = b"\x01\x02\x03\x04\x05\x06\x07\x08abcdefgh";

// A client cookie that differs in its last byte is another's; and of two cookies the first counts.
#[test]
fn another_cookie_is_dropped(rt: HostRuntime) -> Result<(), Fail> {
    assert!(rt; are_judged_with(rt.alloc(), FORGERIES)?);
    assert!(rt; judged_with_both(rt.alloc(), OWN, FORGED)? == Judgement::Learn);
    assert!(rt; judged_with_both(rt.alloc(), FORGED, OWN)? == Judgement::Discard);
    Ok(())
}

/// BADCOOKIE with a server cookie.
const BAD: CookieRow = CookieRow {
    front: BAD_FRONT,
    ext_rcode: 1,
    len: 16,
    wanted: Judgement::Repeat,
    ..GOOD
};

const REPEATS: &[CookieRow] = &[
    BAD,
    CookieRow {
        way: Way::Repeated,
        wanted: Judgement::Learn,
        ..BAD
    },
    CookieRow {
        len: 8,
        wanted: Judgement::HandOn,
        ..BAD
    },
    CookieRow {
        ext_rcode: 0,
        wanted: Judgement::Learn,
        ..BAD
    },
];

// BADCOOKIE, 23, is 1 in the OPT record and 7 in the header (RFC 7873, section 8). It is repeated once, and only where it
// teaches a server cookie; the 7 alone, YXRRSET of RFC 2136, isn't it.
#[test]
fn badcookie_is_repeated_once(rt: HostRuntime) -> Result<(), Fail> {
    assert!(rt; are_judged_with(rt.alloc(), REPEATS)?);
    Ok(())
}

/// A cookie of one byte, to queries that never went, and that went without a cookie.
const COOKIELESS: &[CookieRow] = &[
    CookieRow {
        way: Way::Never,
        len: 1,
        wanted: Judgement::HandOn,
        ..GOOD
    },
    CookieRow {
        way: Way::Plain,
        len: 1,
        wanted: Judgement::HandOn,
        ..GOOD
    },
];

/// Replies whose options are cut, and that are cut themselves, and one with two OPT records.
const UNREADABLE: &[Row] = &[
    Row {
        way: Way::Cookied,
        known: true,
        reply: b"\x12\x34\x81\x80\0\x01\0\0\0\0\0\x01\x07example\x03com\0\0\x01\0\x01\0\0\x29\x04\xd0\0\0\0\0\0\x03\0\x0a\0",
        wanted: Judgement::HandOn,
    },
    Row {
        way: Way::Cookied,
        known: true,
        reply: b"\x12\x34\x81",
        wanted: Judgement::HandOn,
    },
    Row {
        way: Way::Cookied,
        known: true,
        reply: b"\x12\x34\x81\x80\0\0\0\0\0\0\0\x02\0\0\x29\x04\xd0\0\0\0\0\0\0\0\0\x29\x04\xd0\0\0\0\0\0\0",
        wanted: Judgement::HandOn,
    },
];

// What can't be read, what answers no query, and what answers one without a cookie is handed on, whatever its cookie is.
#[test]
fn others_are_handed_on(rt: HostRuntime) -> Result<(), Fail> {
    assert!(rt; are_judged_with(rt.alloc(), COOKIELESS)?);
    assert!(rt; are_judged(rt.alloc(), UNREADABLE)?);
    Ok(())
}
