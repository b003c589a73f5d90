//! Replies that ask for a query again.

use super::messages::{BAD, BAD_AGAIN, GOOD, QUERY};
use super::playing::Step;
use super::rows::{Row, Told, is_told};
use scenario::Coming;
use std::test::Fail;

/// A query of 40 bytes goes with its client cookie, 52 bytes. BADCOOKIE teaches a server cookie: the query goes again with
/// both, 60 bytes, and the caller is given a datagram without a byte. A good reply with both is handed on.
const ASKED_AGAIN: Row = Row {
    comings: &[
        Coming::Datagram {
            from: 0,
            server: 0,
            bytes: BAD,
        },
        Coming::Datagram {
            from: 0,
            server: 0,
            bytes: GOOD,
        },
    ],
    fails: &[],
    steps: &[
        Step::Serve(0),
        Step::Send(0, QUERY),
        Step::Receive,
        Step::Receive,
        Step::Receive,
    ],
    outer: Told::Whole("serve 0\nsend 0 40 sent\ndatagram 0 0\ndatagram 0 60\nnothing\n"),
    inner: Told::Whole(
        "word 258\nword 772\nword 1286\nword 1800\nserve 0\nsend 0 52 sent\ndatagram 0 60\nsend 0 60 sent\ndatagram 0 60\nnothing\n",
    ),
    sent: b"\0\0\x29\x04\xd0\0\0\0\0\0\x14\0\x0a\0\x10\x01\x02\x03\x04\x05\x06\x07\x08\xf1\xf2\xf3\xf4\xf5\xf6\xf7\xf8",
};

#[test]
fn badcookie_is_asked_again(rt: HostRuntime) -> Result<(), Fail> {
    assert!(rt; is_told(rt.alloc(), &ASKED_AGAIN)?);
    Ok(())
}

/// A second BADCOOKIE to the same query is handed on, and the query isn't sent a third time; its server cookie is the last.
const HANDED_ON: Row = Row {
    comings: &[
        Coming::Datagram {
            from: 0,
            server: 0,
            bytes: BAD,
        },
        Coming::Datagram {
            from: 0,
            server: 0,
            bytes: BAD_AGAIN,
        },
    ],
    fails: &[],
    steps: &[
        Step::Serve(0),
        Step::Send(0, QUERY),
        Step::Receive,
        Step::Receive,
        Step::Send(0, QUERY),
    ],
    outer: Told::Whole("serve 0\nsend 0 40 sent\ndatagram 0 0\ndatagram 0 60\nsend 0 40 sent\n"),
    inner: Told::Whole(
        "word 258\nword 772\nword 1286\nword 1800\nserve 0\nsend 0 52 sent\ndatagram 0 60\nsend 0 60 sent\ndatagram 0 60\nsend 0 60 sent\n",
    ),
    sent: b"\x01\x02\x03\x04\x05\x06\x07\x08\xe1\xe2\xe3\xe4\xe5\xe6\xe7\xe8",
};

#[test]
fn a_second_badcookie_is_handed_on(rt: HostRuntime) -> Result<(), Fail> {
    assert!(rt; is_told(rt.alloc(), &HANDED_ON)?);
    Ok(())
}

/// The repeat, the network's call with number 7, fails: the caller is told that the server failed.
const FAILING_REPEAT: Row = Row {
    comings: &[Coming::Datagram {
        from: 0,
        server: 0,
        bytes: BAD,
    }],
    fails: &[7],
    steps: &[Step::Serve(0), Step::Send(0, QUERY), Step::Receive],
    outer: Told::Whole("serve 0\nsend 0 40 sent\nfailed 0 0\n"),
    inner: Told::Whole(
        "word 258\nword 772\nword 1286\nword 1800\nserve 0\nsend 0 52 sent\ndatagram 0 60\nsend 0 60 failed\n",
    ),
    sent: b"",
};

#[test]
fn a_repeat_fails(rt: HostRuntime) -> Result<(), Fail> {
    assert!(rt; is_told(rt.alloc(), &FAILING_REPEAT)?);
    Ok(())
}
