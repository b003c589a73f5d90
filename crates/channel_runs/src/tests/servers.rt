//! Servers that change while requests are pending.

use super::calls::{Call, Request, is_answered};
use super::{End, Run, Scene, begun, closes_so, desk_of, is_left, make_calls, played};
use net_addr::{Addr, Family, ServerAddr};
use std::alloc::Global;
use std::test::Fail;

/// Addresses for documentation (RFC 5737), with the port of the domain service.
const ONE: ServerAddr = ServerAddr {
    address: Addr::V4(0xc000_0201),
    port: 53,
};

const TWO: ServerAddr = ServerAddr {
    address: Addr::V4(0xc000_0202),
    port: 53,
};

const THREE: ServerAddr = ServerAddr {
    address: Addr::V4(0xc000_0203),
    port: 53,
};

/// The first two, of which each is asked twice, first for 2 seconds.
const FIRST_TWO: &[u8] =
    b"nameserver 192.0.2.1\nnameserver 192.0.2.2\noptions timeout:2 attempts:2\n";

const ASK: Call<'static> = Call::Ask(Request::Host(b"x.test.", Family::V4));

/// Asks, makes the last two the list behind the first turn of a run, and plays on.
fn move_servers(alloc: Global, run: &mut Run) -> Result<(), Fail> {
    make_calls(alloc, run, &[ASK])?;
    run.runner.turn(&mut run.desk, &mut run.world)?;
    make_calls(alloc, run, &[Call::Servers(&[TWO, THREE])])?;
    played(run, 5)
}

/// Whether the calls are answered then as they have to be, and the run comes to this, but for its journal.
fn is_moved_so(alloc: Global, run: &mut Run, end: &End<'_>) -> Result<bool, Fail> {
    move_servers(alloc, run)?;
    let answered = run.answers.as_slice() == b"request 1\nservers closed 1\n".as_slice();
    Ok(answered && is_left(alloc, run, end)?)
}

/// Whether a run of a channel of the first two, whose list becomes the last two, comes to this.
fn moves_so(alloc: Global, end: &End<'_>) -> Result<bool, Fail> {
    let scene = Scene {
        resolv: FIRST_TWO,
        comings: &[],
        fails: &[],
        turns: 0,
    };
    let mut run = begun(alloc, &scene)?;
    let is_so = is_moved_so(alloc, &mut run, end);
    closes_so(alloc, is_so, desk_of(run), end.journal)
}

/// The servers are silent. The attempt on the server that leaves is closed, and none is spent by that: four go to the
/// new list, of which the first server keeps its key.
#[test]
fn servers_change_behind_the_first_turn(rt: HostRuntime) -> Result<(), Fail> {
    let end = End {
        status: 12,
        journal: "accept 1
start 1 on 0 over 0 at 0
servers 1 2
start 1 on 1 over 0 at 0
expire 1 at 2000
start 1 on 2 over 0 at 2000
expire 1 at 4000
start 1 on 1 over 0 at 4000
expire 1 at 8000
start 1 on 2 over 0 at 8000
expire 1 at 12000
take 1
",
        calls: "wait to 2000\nwait to 4000\nwait to 8000\nwait to 12000\n",
    };
    assert!(rt; moves_so(rt.alloc(), &end)?);
    Ok(())
}

/// The reply to the request, with the address 192.0.2.9.
const REPLY: Call<'static> = Call::Reply(
    1,
    0,
    b"\x01x\x04test\0\0\x01\0\x01",
    &[b"\xc0\x0c\0\x01\0\x01\0\0\0\x3c\0\x04\xc0\0\x02\x09"],
);

/// The first server comes back behind the last two.
const BACK: &[Call<'static>] = &[
    ASK,
    Call::Start(1, 0),
    Call::Servers(&[TWO, THREE]),
    Call::Start(1, 0),
    Call::Servers(&[ONE]),
    Call::Start(1, 0),
    REPLY,
    Call::Destroy,
    Call::Servers(&[TWO]),
];

/// It has a new key, and what comes from its old one is a stray, though its identifier and its question are right. A
/// destroyed channel's servers can't change.
#[test]
fn a_server_that_comes_back_has_a_new_key(rt: HostRuntime) -> Result<(), Fail> {
    let lines = "request 1
start 1 leg 0 on 0 over 0 as 1
servers closed 1
start 1 leg 0 on 1 over 0 as 1
servers closed 1
start 1 leg 0 on 3 over 0 as 1
stray
destroyed
refused as closed
";
    assert!(rt; is_answered(rt.alloc(), FIRST_TWO, BACK, lines)?);
    Ok(())
}

/// A server leaves that two requests of eight are on, then none leaves, and then one that one request is on.
const FEW_OF_MANY: &[Call<'static>] = &[
    ASK,
    ASK,
    ASK,
    ASK,
    ASK,
    ASK,
    ASK,
    ASK,
    Call::Start(1, 0),
    Call::Start(1, 0),
    Call::Servers(&[TWO, THREE]),
    Call::Look,
    Call::Start(1, 0),
    Call::Servers(&[THREE, TWO]),
    Call::Start(1, 0),
    Call::Start(1, 0),
    Call::Servers(&[THREE]),
    Call::Look,
    Call::Start(1, 0),
];

/// What was on them waits again, before later requests, and the other attempts stay.
#[test]
fn few_of_many_requests_leave_a_server(rt: HostRuntime) -> Result<(), Fail> {
    let lines = "request 1
request 2
request 3
request 4
request 5
request 6
request 7
request 8
start 1 leg 0 on 0 over 0 as 1
start 2 leg 0 on 0 over 0 as 2
servers closed 2
pending 8 ready 0 waiting 8 flying 0 due 0 busy 0
start 1 leg 0 on 1 over 0 as 1
servers closed 0
start 2 leg 0 on 2 over 0 as 2
start 3 leg 0 on 2 over 0 as 3
servers closed 1
pending 8 ready 0 waiting 6 flying 2 due 2000 busy 0
start 1 leg 0 on 2 over 0 as 1
";
    assert!(rt; is_answered(rt.alloc(), FIRST_TWO, FEW_OF_MANY, lines)?);
    Ok(())
}
