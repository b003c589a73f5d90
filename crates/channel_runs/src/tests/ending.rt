//! Requests that end without a reply.

use super::PLAIN;
use super::calls::{Call, Request, is_answered};
use std::test::Fail;

const ASK: Call<'static> = Call::Ask(Request::Query(b"a.example"));

/// Three attempts, of which each wait is twice the one before: at the last moment before a deadline none is due.
const LATE: &[Call<'static>] = &[
    ASK,
    Call::Start(1, 0),
    Call::Expire(1999),
    Call::Expire(2000),
    Call::Start(1, 5000),
    Call::Expire(8999),
    Call::Expire(9000),
    Call::Start(1, 9000),
    Call::Expire(16_999),
    Call::Expire(17_000),
    Call::Take,
];

#[test]
fn a_request_times_out(rt: HostRuntime) -> Result<(), Fail> {
    let lines = "request 1
start 1 leg 0 on 0 over 0 as 1
not due
expired 1 leg 0
start 1 leg 0 on 0 over 0 as 1
not due
expired 1 leg 0
start 1 leg 0 on 0 over 0 as 1
not due
expired 1 leg 0
take 1 status 12 .
";
    assert!(rt; is_answered(rt.alloc(), PLAIN, LATE, lines)?);
    Ok(())
}

/// A fault of another link ends no attempt, and one of its own link does.
const REFUSED: &[Call<'static>] = &[
    ASK,
    Call::Start(1, 0),
    Call::Fault(1),
    Call::Fault(0),
    Call::Start(1, 0),
    Call::Fault(1),
    Call::Fault(0),
    Call::Start(1, 0),
    Call::Fault(1),
    Call::Fault(0),
    Call::Take,
];

#[test]
fn a_link_fails(rt: HostRuntime) -> Result<(), Fail> {
    let lines = "request 1
start 1 leg 0 on 0 over 0 as 1
failed 0
failed 1
start 1 leg 0 on 0 over 0 as 1
failed 0
failed 1
start 1 leg 0 on 0 over 0 as 1
failed 0
failed 1
take 1 status 11 .
";
    assert!(rt; is_answered(rt.alloc(), PLAIN, REFUSED, lines)?);
    Ok(())
}

/// Two attempts are few beside eight requests: they fail again and again, until the first request has had three.
const FEW_OF_MANY: &[Call<'static>] = &[
    ASK,
    ASK,
    ASK,
    ASK,
    ASK,
    ASK,
    ASK,
    ASK,
    Call::Start(1, 0),
    Call::Start(1, 0),
    Call::Fault(0),
    Call::Start(1, 0),
    Call::Fault(0),
    Call::Start(1, 0),
    Call::Start(1, 0),
    Call::Fault(0),
    Call::Take,
    Call::Start(1, 0),
    Call::Start(1, 0),
    Call::Fault(0),
];

#[test]
fn few_of_many_requests_fail(rt: HostRuntime) -> Result<(), Fail> {
    let lines = "request 1
request 2
request 3
request 4
request 5
request 6
request 7
request 8
start 1 leg 0 on 0 over 0 as 1
start 2 leg 0 on 0 over 0 as 2
failed 2
start 1 leg 0 on 0 over 0 as 1
failed 1
start 1 leg 0 on 0 over 0 as 1
start 2 leg 0 on 0 over 0 as 2
failed 2
take 1 status 11 .
start 2 leg 0 on 0 over 0 as 1
start 3 leg 0 on 0 over 0 as 2
failed 2
";
    assert!(rt; is_answered(rt.alloc(), PLAIN, FEW_OF_MANY, lines)?);
    Ok(())
}

/// A name, one that is never asked, and a text that is no name: the last two have ended before the cancel.
const CANCELLED: &[Call<'static>] = &[
    ASK,
    Call::Ask(Request::Query(b"x.onion")),
    Call::Ask(Request::Query(b"a..b")),
    Call::Cancel,
    Call::Cancel,
    Call::Take,
    Call::Take,
    Call::Take,
    Call::Take,
];

#[test]
fn requests_are_cancelled_together(rt: HostRuntime) -> Result<(), Fail> {
    let lines = "request 1
request 2
request 3
cancelled 1
cancelled 0
take 2 status 4 .
take 3 status 8 .
take 1 status 24 .
none ready
";
    assert!(rt; is_answered(rt.alloc(), PLAIN, CANCELLED, lines)?);
    Ok(())
}

/// A refusal as closed has the number 1.
const DESTROYED: &[Call<'static>] = &[
    ASK,
    Call::Destroy,
    Call::Destroy,
    Call::Ask(Request::Query(b"b.example")),
    Call::Cancel,
    Call::Take,
];

#[test]
fn a_destroyed_channel_accepts_nothing(rt: HostRuntime) -> Result<(), Fail> {
    let lines = "request 1
destroyed
destroyed before
refused 1
cancelled 0
take 1 status 16 .
";
    assert!(rt; is_answered(rt.alloc(), PLAIN, DESTROYED, lines)?);
    Ok(())
}
