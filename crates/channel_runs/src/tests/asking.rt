//! Requests that are asked and answered.

use super::PLAIN;
use super::addresses::{ASKED_V4, RECORD_V4};
use super::calls::{Call, Request, channel, is_answered, spec_of};
use chan_types::{Bytes, Quiet, Spec};
use channel_model::{Begun, Desk};
use channel_table::Alone;
use net_addr::{Addr, Family};
use std::alloc::Global;
use std::test::Fail;

/// The query with identifier 0x1234 for the A records of example.com: header and question by RFC 1035, section 4.1, the
/// OPT record, which offers 1,232 bytes, by RFC 6891, section 6.1.2.
const QUERY: &[u8] =
    b"\x12\x34\x01\0\0\x01\0\0\0\0\0\x01\x07example\x03com\0\0\x01\0\x01\0\0\x29\x04\xd0\0\0\0\0\0\0";

/// The query for the host of 192.0.2.1 (RFC 1035, section 3.5).
const REVERSE: &[u8] =
    b"\x12\x34\x01\0\0\x01\0\0\0\0\0\x01\x011\x012\x010\x03192\x07in-addr\x04arpa\0\0\x0c\0\x01\0\0\x29\x04\xd0\0\0\0\0\0\0";

/// The query for the AAAA records of a.test (RFC 3596, section 2.1).
const QUERY_V6: &[u8] =
    b"\x12\x34\x01\0\0\x01\0\0\0\0\0\x01\x01a\x04test\0\0\x1c\0\x01\0\0\x29\x04\xd0\0\0\0\0\0\0";

/// Requests, and the query of each.
const QUERIES: &[(Request<'static>, &[u8])] = &[
    (Request::Query(b"example.com"), QUERY),
    (Request::Reverse(Addr::V4(0xc000_0201)), REVERSE),
    (Request::Host(b"a.test", Family::V6), QUERY_V6),
];

/// Asks, and passes over a refusal.
fn ask(alloc: Global, desk: &mut Alone<Quiet>, spec: Spec) {
    let _accepted = desk.accept(spec, Quiet::new(alloc)).is_ok();
}

/// The bytes of the attempt that begins, or none.
fn bytes_begun(alloc: Global, desk: &mut Alone<Quiet>) -> Result<Bytes, Fail> {
    match desk.start(0x1234, 0, 0)? {
        Begun::Started { message, .. } => Ok(message),
        Begun::Idle | Begun::NoId => Ok(Bytes::new(alloc)),
    }
}

/// The bytes of the attempt that begins for a request, or none.
fn bytes_for(alloc: Global, desk: &mut Alone<Quiet>, spec: Spec) -> Result<Bytes, Fail> {
    ask(alloc, desk, spec);
    bytes_begun(alloc, desk)
}

/// The same on a channel of one server.
fn query_of(alloc: Global, request: Request<'_>) -> Result<Bytes, Fail> {
    let spec = spec_of(alloc, request)?;
    bytes_for(alloc, &mut channel(alloc, PLAIN)?, spec)
}

#[test]
fn queries_are_spelled(rt: HostRuntime) -> Result<(), Fail> {
    for (request, query) in QUERIES {
        assert!(rt; query_of(rt.alloc(), *request)?.as_slice() == *query);
    }
    Ok(())
}

/// A reply to it with the record of 192.0.2.1 (RFC 1035, sections 4.1.3 and 4.1.4).
const REPLY: &[u8] =
    b"\x12\x34\x81\x80\0\x01\0\x01\0\0\0\0\x07example\x03com\0\0\x01\0\x01\xc0\x0c\0\x01\0\x01\0\0\0\x3c\0\x04\xc0\0\x02\x01";

/// A query that begins at moment 7, and its reply: from another server, from its own, and once more.
const ASKED: &[Call<'static>] = &[
    Call::Ask(Request::Query(b"example.com")),
    Call::Start(0x1234, 7),
    Call::Start(0x1234, 7),
    Call::Look,
    Call::Arrive(1, REPLY),
    Call::Arrive(0, REPLY),
    Call::Arrive(0, REPLY),
    Call::Take,
    Call::Take,
];

#[test]
fn a_reply_answers_its_attempt(rt: HostRuntime) -> Result<(), Fail> {
    let lines = "request 1
start 1 leg 0 on 0 over 0 as 4660
idle
pending 1 ready 0 waiting 0 flying 1 due 2007 busy 1
stray
matched 1 leg 0
stray
take 1 status 0 .
none ready
";
    assert!(rt; is_answered(rt.alloc(), PLAIN, ASKED, lines)?);
    Ok(())
}

/// Three requests for one name, and a reply to the second (RFC 1035, section 4.1.1): the identifier behind the greatest
/// is 0, one that is in flight isn't given, and one whose attempt has ended is.
const IDENTIFIERS: &[Call<'static>] = &[
    Call::Ask(Request::Query(b"a.test")),
    Call::Ask(Request::Query(b"a.test")),
    Call::Ask(Request::Query(b"a.test")),
    Call::Start(0xffff, 0),
    Call::Start(0xffff, 0),
    Call::Reply(0, 0, ASKED_V4, &[RECORD_V4]),
    Call::Start(0, 0),
    Call::Cancel,
];

#[test]
fn an_identifier_is_given_again(rt: HostRuntime) -> Result<(), Fail> {
    let lines = "request 1
request 2
request 3
start 1 leg 0 on 0 over 0 as 65535
start 2 leg 0 on 0 over 0 as 0
matched 2 leg 0
start 3 leg 0 on 0 over 0 as 0
cancelled 2
";
    assert!(rt; is_answered(rt.alloc(), PLAIN, IDENTIFIERS, lines)?);
    Ok(())
}
