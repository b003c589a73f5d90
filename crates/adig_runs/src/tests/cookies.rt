//! Runs with `--cookie`: queries with a DNS cookie (RFC 7873), and replies that teach one, ask for one, or lack it.

use super::outcome::{is_left, outcome_of};
use super::replies::ANSWERED_RUN;
use super::{REPLY, RUN, Scenario, Sent, Wanted};
use scenario::Coming;
use std::alloc::Global;
use std::test::Fail;

/// The words of a run with cookies.
const LINE: &str = "--server 192.0.2.53 --cookie example.com";

/// Four random words make the client cookie 01 02 .. 08, and the fifth is the query's identifier.
const WORDS: &[u16] = &[0x0102, 0x0304, 0x0506, 0x0708, 0x1234];

/// The query as the run has it: 40 bytes with identifier 0x1234, RD, and an OPT record that offers 1,232 bytes (RFC 1035,
/// section 4.1; RFC 6891, section 6.1.2).
const QUERY: &[u8] =
    b"\x12\x34\x01\0\0\x01\0\0\0\0\0\x01\x07example\x03com\0\0\x01\0\x01\0\0\x29\x04\xd0\0\0\0\0\0\0";

/// The same as it is sent first: 52 bytes, of which the last 12 are the option 10 with the client cookie (RFC 7873, section 4).
const FIRST: &[u8] =
    b"\x12\x34\x01\0\0\x01\0\0\0\0\0\x01\x07example\x03com\0\0\x01\0\x01\0\0\x29\x04\xd0\0\0\0\0\0\x0c\0\x0a\0\x08\x01\x02\x03\x04\x05\x06\x07\x08";

/// What is sent where the query is sent again with both cookies: 60 bytes behind those 52.
const BOTH: &[u8] =
    b"\x12\x34\x01\0\0\x01\0\0\0\0\0\x01\x07example\x03com\0\0\x01\0\x01\0\0\x29\x04\xd0\0\0\0\0\0\x0c\0\x0a\0\x08\x01\x02\x03\x04\x05\x06\x07\x08\x12\x34\x01\0\0\x01\0\0\0\0\0\x01\x07example\x03com\0\0\x01\0\x01\0\0\x29\x04\xd0\0\0\0\0\0\x14\0\x0a\0\x10\x01\x02\x03\x04\x05\x06\x07\x08\xf1\xf2\xf3\xf4\xf5\xf6\xf7\xf8";

/// BADCOOKIE, 23: 7 in the header and 1 in the OPT record (RFC 7873, section 8), with the client cookie and a server cookie of
/// 8 bytes.
const BAD: &[u8] =
    b"\x12\x34\x81\x87\0\x01\0\0\0\0\0\x01\x07example\x03com\0\0\x01\0\x01\0\0\x29\x04\xd0\x01\0\0\0\0\x14\0\x0a\0\x10\x01\x02\x03\x04\x05\x06\x07\x08\xf1\xf2\xf3\xf4\xf5\xf6\xf7\xf8";

/// A good reply with the address 192.0.2.1 and both cookies.
const GOOD: &[u8] =
    b"\x12\x34\x81\x80\0\x01\0\x01\0\0\0\x01\x07example\x03com\0\0\x01\0\x01\xc0\x0c\0\x01\0\x01\0\0\x01\x2c\0\x04\xc0\0\x02\x01\0\0\x29\x04\xd0\0\0\0\0\0\x14\0\x0a\0\x10\x01\x02\x03\x04\x05\x06\x07\x08\xf1\xf2\xf3\xf4\xf5\xf6\xf7\xf8";

/// The same with the address 192.0.2.9 and a client cookie that differs in its last byte.
const FORGED: &[u8] =
    b"\x12\x34\x81\x80\0\x01\0\x01\0\0\0\x01\x07example\x03com\0\0\x01\0\x01\xc0\x0c\0\x01\0\x01\0\0\x01\x2c\0\x04\xc0\0\x02\x09\0\0\x29\x04\xd0\0\0\0\0\0\x14\0\x0a\0\x10\x01\x02\x03\x04\x05\x06\x07\x09\xf1\xf2\xf3\xf4\xf5\xf6\xf7\xf8";

/// One Start, and a reply.
const ANSWERED: &str = "accept 1
start 1 on 0 over 0 at 0
arrive from 0 over 0
take 1
destroy
";

/// One Start, and a reply behind a datagram without a byte.
const ANSWERED_LATER: &str = "accept 1
start 1 on 0 over 0 at 0
arrive from 0 over 0
arrive from 0 over 0
take 1
destroy
";

const ONE_WAIT: &str = "serve 0 of 3221226037 at 53\nwait to 2000\n";

const TWO_WAITS: &str = "serve 0 of 3221226037 at 53\nwait to 2000\nwait to 2000\n";

/// A run with cookies, on which nothing comes.
const WITH_COOKIES: Scenario<'static> = Scenario {
    line: LINE,
    words: WORDS,
    ..RUN
};

/// A page with an address.
const PAGE: &str = ";; example.com IN A
;; status 0 SUCCESS
;; id 4660 rcode 0 flags qr rd ra
;; ANSWER
example.com. 300 IN A 192.0.2.1
";

/// The same, whose reply has both cookies.
const COOKIE_PAGE: &str = ";; example.com IN A
;; status 0 SUCCESS
;; id 4660 rcode 0 flags qr rd ra
;; ANSWER
example.com. 300 IN A 192.0.2.1
;; ADDITIONAL
. OPT size 1232 ext 0 version 0 do 0 \\# 20 000a00100102030405060708f1f2f3f4f5f6f7f8
";

/// The page of a second BADCOOKIE.
const BAD_PAGE: &str = ";; example.com IN A
;; status 10 EBADRESP
;; id 4660 rcode 23 flags qr rd ra
;; ADDITIONAL
. OPT size 1232 ext 1 version 0 do 0 \\# 20 000a00100102030405060708f1f2f3f4f5f6f7f8
";

/// What the server sends at moment 1 or 2.
const PLAIN_AT_1: Coming<'static> = Coming::Datagram {
    from: 1,
    server: 0,
    bytes: REPLY,
};

const BAD_AT_1: Coming<'static> = Coming::Datagram {
    from: 1,
    server: 0,
    bytes: BAD,
};

const FORGED_AT_1: Coming<'static> = Coming::Datagram {
    from: 1,
    server: 0,
    bytes: FORGED,
};

const BAD_AT_2: Coming<'static> = Coming::Datagram {
    from: 2,
    server: 0,
    bytes: BAD,
};

const GOOD_AT_2: Coming<'static> = Coming::Datagram {
    from: 2,
    server: 0,
    bytes: GOOD,
};

/// The first query goes out with its client cookie, and a reply without a cookie counts, since no server cookie is known.
const FIRST_QUERY: Scenario<'static> = Scenario {
    comings: &[PLAIN_AT_1],
    ..WITH_COOKIES
};

const FIRST_QUERY_LEAVES: Wanted<'static> = Wanted {
    status: 0,
    put: PAGE,
    journal: ANSWERED,
    calls: ONE_WAIT,
    called: 1,
    sent: Sent::All(FIRST),
};

/// BADCOOKIE has the query sent again, which the journal doesn't note; then the good reply counts.
const ASKED_AGAIN: Scenario<'static> = Scenario {
    comings: &[BAD_AT_1, GOOD_AT_2],
    ..WITH_COOKIES
};

const ASKED_AGAIN_LEAVES: Wanted<'static> = Wanted {
    status: 0,
    put: COOKIE_PAGE,
    journal: ANSWERED_LATER,
    calls: TWO_WAITS,
    called: 1,
    sent: Sent::All(BOTH),
};

/// A second BADCOOKIE is the answer: the query isn't sent a third time.
const BAD_TWICE: Scenario<'static> = Scenario {
    comings: &[BAD_AT_1, BAD_AT_2],
    ..WITH_COOKIES
};

const BAD_TWICE_LEAVES: Wanted<'static> = Wanted {
    status: 1,
    put: BAD_PAGE,
    ..ASKED_AGAIN_LEAVES
};

/// A forged reply, whose client cookie is another's, doesn't count, and the good one behind it does.
const FORGED_FIRST: Scenario<'static> = Scenario {
    comings: &[FORGED_AT_1, GOOD_AT_2],
    ..WITH_COOKIES
};

const FORGED_FIRST_LEAVES: Wanted<'static> = Wanted {
    sent: Sent::All(FIRST),
    ..ASKED_AGAIN_LEAVES
};

/// Whether a run leaves this, and the calls of its network with cookies tell that the query was sent once, as the run had it.
fn leaves_with_cookies(
    alloc: Global,
    run: &Scenario<'_>,
    wanted: &Wanted<'_>,
) -> Result<bool, Fail> {
    let outcome = outcome_of(alloc, run)?;
    Ok(outcome.outer_sent.as_slice() == QUERY && is_left(&outcome, wanted))
}

#[test]
fn the_first_query_has_a_client_cookie(rt: HostRuntime) -> Result<(), Fail> {
    assert!(rt; leaves_with_cookies(rt.alloc(), &FIRST_QUERY, &FIRST_QUERY_LEAVES)?);
    Ok(())
}

#[test]
fn badcookie_has_the_query_sent_again(rt: HostRuntime) -> Result<(), Fail> {
    assert!(rt; leaves_with_cookies(rt.alloc(), &ASKED_AGAIN, &ASKED_AGAIN_LEAVES)?);
    Ok(())
}

#[test]
fn a_second_badcookie_is_the_answer(rt: HostRuntime) -> Result<(), Fail> {
    assert!(rt; leaves_with_cookies(rt.alloc(), &BAD_TWICE, &BAD_TWICE_LEAVES)?);
    Ok(())
}

#[test]
fn a_forged_reply_is_dropped(rt: HostRuntime) -> Result<(), Fail> {
    assert!(rt; leaves_with_cookies(rt.alloc(), &FORGED_FIRST, &FORGED_FIRST_LEAVES)?);
    Ok(())
}

/// Without the flag there is no network with cookies, and so none of its calls.
#[test]
fn without_the_flag_there_is_no_cookie(rt: HostRuntime) -> Result<(), Fail> {
    assert_eq!(rt; outcome_of(rt.alloc(), &ANSWERED_RUN)?.outer_count, 0);
    Ok(())
}
