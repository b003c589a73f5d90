//! Runs over what servers answer, and when.

use super::{Case, REPLY, RUN, Scenario, Sent, Wanted, first_wrong};
use scenario::Coming;
use std::test::Fail;

/// The query of the plain run: 29 bytes with identifier 0x1234 and RD (RFC 1035, section 4.1).
pub const QUERY: &[u8] = b"\x12\x34\x01\0\0\x01\0\0\0\0\0\0\x07example\x03com\0\0\x01\0\x01";

/// Its page.
pub const PAGE: &str = ";; example.com IN A
;; status 0 SUCCESS
;; id 4660 rcode 0 flags qr rd ra
;; ANSWER
example.com. 300 IN A 192.0.2.1
";

/// One server is asked, and answered once.
const ASKED: &str = "serve 0 of 3221226037 at 53\nwait to 2000\n";

const ANSWERED: &str = "accept 1
start 1 on 0 over 0 at 0
arrive from 0 over 0
take 1
destroy
";

/// Behind a stray.
const ANSWERED_LATER: &str = "accept 1
start 1 on 0 over 0 at 0
arrive from 0 over 0
arrive from 0 over 0
take 1
destroy
";

/// The plain run, answered at moment 1.
pub const ANSWERED_RUN: Scenario<'static> = Scenario {
    comings: &[REPLY_AT_1],
    ..RUN
};

/// What it leaves: the query goes out once, and the reply's address is printed.
pub const PRINTED: Wanted<'static> = Wanted {
    status: 0,
    put: PAGE,
    journal: ANSWERED,
    calls: ASKED,
    called: 1,
    sent: Sent::All(QUERY),
};

/// The reply, at moment 1.
const REPLY_AT_1: Coming<'static> = Coming::Datagram {
    from: 1,
    server: 0,
    bytes: REPLY,
};

/// The query with an OPT record that offers 1,232 bytes (RFC 6891, section 6.1.2).
const QUERY_OPT: &[u8] =
    b"\x12\x34\x01\0\0\x01\0\0\0\0\0\x01\x07example\x03com\0\0\x01\0\x01\0\0\x29\x04\xd0\0\0\0\0\0\0";

/// The query's letters are mixed by the word that is drawn next, 5: those of numbers 0 and 2 are in upper case.
const MIXED: &[u8] = b"\x12\x34\x01\0\0\x01\0\0\0\0\0\0\x07ExAmple\x03com\0\0\x01\0\x01";

/// A reply that repeats them.
const MIXED_REPLY: &[u8] =
    b"\x12\x34\x81\x80\0\x01\0\x01\0\0\0\0\x07ExAmple\x03com\0\0\x01\0\x01\xc0\x0c\0\x01\0\x01\0\0\x01\x2c\0\x04\xc0\0\x02\x01";

/// With `--mix` a reply has to repeat the letters: the first one doesn't, and is a stray.
pub const MIXED_RUN: Case = Case {
    shows: "mixed letters are repeated",
    run: Scenario {
        line: "--server 192.0.2.53 --no-edns --mix example.com",
        words: &[0x1234, 5],
        comings: &[
            REPLY_AT_1,
            Coming::Datagram {
                from: 2,
                server: 0,
                bytes: MIXED_REPLY,
            },
        ],
        ..RUN
    },
    wanted: Wanted {
        put: ";; example.com IN A
;; status 0 SUCCESS
;; id 4660 rcode 0 flags qr rd ra
;; ANSWER
ExAmple.com. 300 IN A 192.0.2.1
",
        journal: ANSWERED_LATER,
        calls: "serve 0 of 3221226037 at 53\nwait to 2000\nwait to 2000\n",
        sent: Sent::All(MIXED),
        ..PRINTED
    },
};

/// Replies that are printed.
const REPLIES: &[Case] = &[
    Case {
        shows: "an address is printed",
        run: ANSWERED_RUN,
        wanted: PRINTED,
    },
    // Without `--no-edns`.
    Case {
        shows: "an OPT record is sent",
        run: Scenario {
            line: "--server 192.0.2.53 example.com",
            ..ANSWERED_RUN
        },
        wanted: Wanted {
            sent: Sent::All(QUERY_OPT),
            ..PRINTED
        },
    },
    // The request is taken once.
    Case {
        shows: "a second reply is a stray",
        run: Scenario {
            comings: &[REPLY_AT_1, REPLY_AT_1],
            ..RUN
        },
        wanted: Wanted {
            journal: ANSWERED_LATER,
            ..PRINTED
        },
    },
    // A turn receives before it lets expire.
    Case {
        shows: "a reply at the deadline counts",
        run: Scenario {
            line: "--server 192.0.2.53 --no-edns --tries 1 example.com",
            comings: &[Coming::Datagram {
                from: 2000,
                server: 0,
                bytes: REPLY,
            }],
            ..RUN
        },
        wanted: PRINTED,
    },
    MIXED_RUN,
];

#[test]
fn replies_are_printed(rt: HostRuntime) -> Result<(), Fail> {
    assert_eq!(rt; first_wrong(rt.alloc(), REPLIES)?, "");
    Ok(())
}
