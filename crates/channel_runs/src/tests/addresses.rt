//! Requests for addresses: those that are answered at once, and those of one family.

use super::PLAIN;
use super::calls::{Call, Request, is_answered};
use net_addr::Family;
use std::alloc::Global;
use std::test::Fail;

/// Hosts, and what they come to at once: an address, the host itself (RFC 6761, section 6.3), no name, a hidden service
/// (RFC 7686, section 2), and one that is to be asked for.
const HOSTS: &[(&[u8], &str)] = &[
    (b"192.0.2.7", "request 1\ntake 1 status 0 . 192.0.2.7\n"),
    (
        b"localhost",
        "request 1\ntake 1 status 0 localhost. ::1 127.0.0.1\n",
    ),
    (b"a..b", "request 1\ntake 1 status 8 .\n"),
    (b"x.onion", "request 1\ntake 1 status 4 .\n"),
    (b"example.com", "request 1\nnone ready\n"),
];

/// Whether a request for a host's addresses is answered by these lines.
fn is_at_once(alloc: Global, host: &[u8], lines: &str) -> Result<bool, Fail> {
    let calls = [Call::Ask(Request::Host(host, Family::Any)), Call::Take];
    is_answered(alloc, PLAIN, &calls, lines)
}

#[test]
fn an_address_is_answered_at_once(rt: HostRuntime) -> Result<(), Fail> {
    for (host, lines) in HOSTS {
        assert!(rt; is_at_once(rt.alloc(), host, lines)?);
    }
    Ok(())
}

/// The questions for the A and the AAAA records of a.test (RFC 1035, section 4.1.2; RFC 3596, section 2.1).
pub const ASKED_V4: &[u8] = b"\x01a\x04test\0\0\x01\0\x01";

pub const ASKED_V6: &[u8] = b"\x01a\x04test\0\0\x1c\0\x01";

/// The records of 192.0.2.1 and 2001:db8::1 for the name of the question,
pub const RECORD_V4: &[u8] = b"\xc0\x0c\0\x01\0\x01\0\0\0\x3c\0\x04\xc0\0\x02\x01";

pub const RECORD_V6: &[u8] =
    b"\xc0\x0c\0\x1c\0\x01\0\0\0\x3c\0\x10\x20\x01\x0d\xb8\0\0\0\0\0\0\0\0\0\0\0\x01";

/// an alias of it for b.test, and the record of 192.0.2.1 for that.
const ALIAS: &[u8] = b"\xc0\x0c\0\x05\0\x01\0\0\0\x3c\0\x04\x01b\xc0\x0e";

const BEHIND_ALIAS: &[u8] = b"\xc0\x24\0\x01\0\x01\0\0\0\x3c\0\x04\xc0\0\x02\x01";

/// Families with the leg of each, replies, and what they come to: the canonical name is that of the alias (RFC 1034,
/// section 3.6.2).
const REPLIES: &[(Family, u8, Call<'static>, &str)] = &[
    (
        Family::V4,
        0,
        Call::Reply(1, 0, ASKED_V4, &[RECORD_V4]),
        "0 a.test. 192.0.2.1",
    ),
    (
        Family::V6,
        1,
        Call::Reply(1, 0, ASKED_V6, &[RECORD_V6]),
        "0 a.test. 2001:db8::1",
    ),
    (
        Family::V4,
        0,
        Call::Reply(1, 0, ASKED_V4, &[ALIAS, BEHIND_ALIAS]),
        "0 b.test. 192.0.2.1",
    ),
    (Family::V4, 0, Call::Reply(1, 0, ASKED_V4, &[ALIAS]), "1 ."),
    (Family::V4, 0, Call::Reply(1, 3, ASKED_V4, &[]), "4 ."),
];

/// The lines of a request whose leg has a reply.
fn lines_with(alloc: Global, leg: u8, end: &str) -> Result<String, Fail> {
    Ok(format!(in alloc;
        "request 1
start 1 leg {leg} on 0 over 0 as 1
matched 1 leg {leg}
take 1 status {end}
"
    )?)
}

/// Whether a request for the addresses of this family answers these lines, where it has this reply.
fn gives(alloc: Global, family: Family, reply: Call<'_>, lines: &str) -> Result<bool, Fail> {
    let calls = [
        Call::Ask(Request::Host(b"a.test", family)),
        Call::Start(1, 0),
        reply,
        Call::Take,
    ];
    is_answered(alloc, PLAIN, &calls, lines)
}

/// Whether the reply to this leg comes to this.
fn comes_to(
    alloc: Global,
    family: Family,
    leg: u8,
    reply: Call<'_>,
    end: &str,
) -> Result<bool, Fail> {
    let lines = lines_with(alloc, leg, end)?;
    gives(alloc, family, reply, lines.as_str())
}

#[test]
fn replies_give_addresses(rt: HostRuntime) -> Result<(), Fail> {
    for (family, leg, reply, end) in REPLIES {
        assert!(rt; comes_to(rt.alloc(), *family, *leg, *reply, end)?);
    }
    Ok(())
}
