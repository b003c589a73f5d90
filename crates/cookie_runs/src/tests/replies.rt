//! Replies with and without a cookie, before and behind the first server cookie.

use super::messages::{BARE, BOTH, FORGED, GOOD, PLAIN, QUERY};
use super::playing::Step;
use super::rows::{Row, Told, is_told};
use scenario::Coming;
use std::test::Fail;

/// A reply without a cookie is handed on. One that teaches a server cookie is, and behind it one without a cookie is dropped,
/// and one with another client cookie too. The next query carries both cookies.
const LEARNED: Row = Row {
    comings: &[
        Coming::Datagram {
            from: 0,
            server: 0,
            bytes: BARE,
        },
        Coming::Datagram {
            from: 0,
            server: 0,
            bytes: GOOD,
        },
        Coming::Datagram {
            from: 0,
            server: 0,
            bytes: BARE,
        },
        Coming::Datagram {
            from: 0,
            server: 0,
            bytes: FORGED,
        },
    ],
    fails: &[],
    steps: &[
        Step::Serve(0),
        Step::Send(0, QUERY),
        Step::Receive,
        Step::Receive,
        Step::Receive,
        Step::Receive,
        Step::Send(0, QUERY),
    ],
    outer: Told::Whole(
        "serve 0\nsend 0 40 sent\ndatagram 0 40\ndatagram 0 60\ndatagram 0 0\ndatagram 0 0\nsend 0 40 sent\n",
    ),
    inner: Told::End(
        "datagram 0 40\ndatagram 0 60\ndatagram 0 40\ndatagram 0 60\nsend 0 60 sent\n",
    ),
    sent: BOTH,
};

#[test]
fn a_server_cookie_is_learned(rt: HostRuntime) -> Result<(), Fail> {
    assert!(rt; is_told(rt.alloc(), &LEARNED)?);
    Ok(())
}

/// A reply to an identifier that was never asked is handed on, and teaches nothing; so is one to a query that went as it is.
const STRAY: Row = Row {
    comings: &[
        Coming::Datagram {
            from: 0,
            server: 0,
            bytes: FORGED,
        },
        Coming::Datagram {
            from: 0,
            server: 0,
            bytes: FORGED,
        },
    ],
    fails: &[],
    steps: &[
        Step::Serve(0),
        Step::Receive,
        Step::Send(0, PLAIN),
        Step::Receive,
        Step::Send(0, QUERY),
    ],
    outer: Told::Whole("serve 0\ndatagram 0 60\nsend 0 29 sent\ndatagram 0 60\nsend 0 40 sent\n"),
    inner: Told::End("serve 0\ndatagram 0 60\nsend 0 29 sent\ndatagram 0 60\nsend 0 52 sent\n"),
    sent: b"",
};

#[test]
fn a_stray_is_handed_on(rt: HostRuntime) -> Result<(), Fail> {
    assert!(rt; is_told(rt.alloc(), &STRAY)?);
    Ok(())
}
