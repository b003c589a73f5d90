//! Several servers, and a server that is told again.

use super::messages::{BAD, BARE, BOTH, GOOD, NEXT, PLAIN, QUERY};
use super::playing::{Step, play};
use super::rows::{Row, Told, is_told};
use scenario::Coming;
use std::alloc::Global;
use std::test::Fail;

/// Whether the first of these datagrams, of 52 bytes, has this cookie at its end.
fn first_carries(sent: &[u8], cookie: &[u8]) -> bool {
    match sent.get(44..52) {
        Some(bytes) => bytes == cookie,
        None => false,
    }
}

/// Two servers are told, and three are asked.
const STEPS: &[Step<'static>] = &[
    Step::Serve(0),
    Step::Serve(7),
    Step::Send(0, QUERY),
    Step::Send(3, QUERY),
    Step::Send(7, QUERY),
];

/// Whether the first and the last one have a client cookie of their own.
fn have_own(sent: &[u8]) -> bool {
    sent.len() == 144
        && first_carries(sent, b"\x01\x02\x03\x04\x05\x06\x07\x08")
        && sent.ends_with(b"\x11\x12\x13\x14\x15\x16\x17\x18")
}

/// Whether it is so, and the server that wasn't told is sent 40 bytes.
fn are_apart(alloc: Global) -> Result<bool, Fail> {
    let played = play(alloc, &[], &[], STEPS)?;
    let end = "serve 7\nsend 0 52 sent\nsend 3 40 sent\nsend 7 52 sent\n";
    Ok(played.inner.as_str().ends_with(end) && have_own(played.sent.as_slice()))
}

/// Each server has a client cookie of its own; a server that was never told is sent the query as it is.
#[test]
fn each_server_has_its_client_cookie(rt: HostRuntime) -> Result<(), Fail> {
    assert!(rt; are_apart(rt.alloc())?);
    Ok(())
}

/// A server that is told again has a new client cookie, and no server cookie: a reply with the old one is dropped, one without a
/// cookie is handed on, and the next query carries the new client cookie alone.
const TOLD_AGAIN: Row = Row {
    comings: &[
        Coming::Datagram {
            from: 0,
            server: 0,
            bytes: GOOD,
        },
        Coming::Datagram {
            from: 0,
            server: 0,
            bytes: GOOD,
        },
        Coming::Datagram {
            from: 0,
            server: 0,
            bytes: BARE,
        },
    ],
    fails: &[],
    steps: &[
        Step::Serve(0),
        Step::Send(0, QUERY),
        Step::Receive,
        Step::Serve(0),
        Step::Receive,
        Step::Receive,
        Step::Send(0, QUERY),
    ],
    outer: Told::Whole(
        "serve 0\nsend 0 40 sent\ndatagram 0 60\nserve 0\ndatagram 0 0\ndatagram 0 40\nsend 0 40 sent\n",
    ),
    inner: Told::End("serve 0\ndatagram 0 60\ndatagram 0 40\nsend 0 52 sent\n"),
    sent: b"\x11\x12\x13\x14\x15\x16\x17\x18",
};

#[test]
fn a_server_is_told_again(rt: HostRuntime) -> Result<(), Fail> {
    assert!(rt; is_told(rt.alloc(), &TOLD_AGAIN)?);
    Ok(())
}

/// Three queries: one with a cookie, one to the same server with the next identifier, and one with the same identifier to
/// another server, the last two as they are. Of two BADCOOKIEs the other server's answers its own query, and is handed on. The
/// first server's asks for its own again, and not for the one that was sent last.
const APART: Row = Row {
    comings: &[
        Coming::Datagram {
            from: 0,
            server: 7,
            bytes: BAD,
        },
        Coming::Datagram {
            from: 0,
            server: 0,
            bytes: BAD,
        },
        Coming::Datagram {
            from: 0,
            server: 0,
            bytes: GOOD,
        },
    ],
    fails: &[],
    steps: &[
        Step::Serve(0),
        Step::Serve(7),
        Step::Send(0, QUERY),
        Step::Send(0, NEXT),
        Step::Send(7, PLAIN),
        Step::Receive,
        Step::Receive,
        Step::Receive,
    ],
    outer: Told::Whole(
        "serve 0\nserve 7\nsend 0 40 sent\nsend 0 29 sent\nsend 7 29 sent\ndatagram 7 60\ndatagram 0 0\ndatagram 0 60\n",
    ),
    inner: Told::End(
        "send 0 52 sent\nsend 0 29 sent\nsend 7 29 sent\ndatagram 7 60\ndatagram 0 60\nsend 0 60 sent\ndatagram 0 60\n",
    ),
    sent: BOTH,
};

#[test]
fn each_server_and_identifier_has_its_query(rt: HostRuntime) -> Result<(), Fail> {
    assert!(rt; is_told(rt.alloc(), &APART)?);
    Ok(())
}
