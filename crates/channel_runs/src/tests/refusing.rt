//! Each call that may be refused for want of memory, and the journal of them all.

use super::addresses::{ASKED_V4, ASKED_V6, RECORD_V4, RECORD_V6};
use super::calls::{Call, Request, answers_so, channel};
use super::{PLAIN, closes_so};
use net_addr::{Addr, Family, ServerAddr};
use std::alloc::Global;
use std::test::Fail;

/// An address for documentation (RFC 5737), with the port of the domain service.
const OTHER: ServerAddr = ServerAddr {
    address: Addr::V4(0xc000_0202),
    port: 53,
};

/// Requests of each kind: one is answered, one expires and fails, one is moved to another server, one is answered at
/// once, and the rest is destroyed.
const ALL: &[Call<'static>] = &[
    Call::Ask(Request::Host(b"a.test", Family::Any)),
    Call::Ask(Request::Search(b"b.test")),
    Call::Ask(Request::Host(b"192.0.2.7", Family::V4)),
    Call::Start(1, 0),
    Call::Start(1, 0),
    Call::Start(1, 0),
    Call::Arrive(0, b""),
    Call::Reply(2, 0, ASKED_V6, &[RECORD_V6]),
    Call::Reply(1, 0, ASKED_V4, &[RECORD_V4]),
    Call::Take,
    Call::Take,
    Call::Expire(2000),
    Call::Start(1, 2000),
    Call::Fault(0),
    Call::Start(1, 2000),
    Call::Ask(Request::Reverse(Addr::V4(0xc000_0201))),
    Call::Servers(&[OTHER]),
    Call::Start(1, 2000),
    Call::Cancel,
    Call::Ask(Request::Query(b"c.test")),
    Call::Destroy,
];

/// What they answer.
const LINES: &str = "request 1
request 2
request 3
start 1 leg 0 on 0 over 0 as 1
start 1 leg 1 on 0 over 0 as 2
start 2 leg 0 on 0 over 0 as 3
stray
matched 1 leg 1
matched 1 leg 0
take 3 status 0 . 192.0.2.7
take 1 status 0 a.test. 2001:db8::1 192.0.2.1
expired 2 leg 0
start 2 leg 0 on 0 over 0 as 1
failed 1
start 2 leg 0 on 0 over 0 as 1
request 4
servers closed 1
start 2 leg 0 on 1 over 0 as 1
cancelled 2
request 5
destroyed
";

/// The journal: each call that did something has one entry.
const JOURNAL: &str = "accept 1
accept 2
accept 3
start 1 on 0 over 0 at 0
start 1 on 0 over 0 at 0
start 2 on 0 over 0 at 0
arrive from 0 over 0
arrive from 0 over 0
arrive from 0 over 0
take 3
take 1
expire 2 at 2000
start 2 on 0 over 0 at 2000
fault of 0 over 0 at 0
start 2 on 0 over 0 at 2000
accept 4
servers 1
start 2 on 1 over 0 at 2000
cancel
accept 5
destroy
";

/// Whether a channel answers so, and has that journal in the end.
fn leaves_no_trace(alloc: Global) -> Result<bool, Fail> {
    let mut desk = channel(alloc, PLAIN)?;
    let answered = answers_so(alloc, &mut desk, ALL, LINES);
    closes_so(alloc, answered, desk, JOURNAL)
}

/// In the gate nothing is refused. `bench/refusals.sh` refuses memory once in each run, at the first place, the second,
/// and so on.
#[test]
fn what_is_refused_leaves_no_trace(rt: HostRuntime) -> Result<(), Fail> {
    assert!(rt; leaves_no_trace(rt.alloc())?);
    Ok(())
}
