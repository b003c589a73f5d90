//! Requests for the addresses of both families, which have two legs.

use super::PLAIN;
use super::addresses::{ASKED_V4, ASKED_V6, RECORD_V4, RECORD_V6};
use super::calls::{Call, Request, is_answered};
use net_addr::Family;
use std::alloc::Global;
use std::test::Fail;

/// Asks for the addresses of a.test, and begins an attempt for each family.
const ASK: Call<'static> = Call::Ask(Request::Host(b"a.test", Family::Any));

const START_V4: Call<'static> = Call::Start(1, 0);

const START_V6: Call<'static> = Call::Start(2, 0);

/// Replies to both questions: with a record, without one, and that there is no such name (response code 3).
const GOOD_V4: Call<'static> = Call::Reply(1, 0, ASKED_V4, &[RECORD_V4]);

const EMPTY_V4: Call<'static> = Call::Reply(1, 0, ASKED_V4, &[]);

const NO_NAME_V4: Call<'static> = Call::Reply(1, 3, ASKED_V4, &[]);

const GOOD_V6: Call<'static> = Call::Reply(2, 0, ASKED_V6, &[RECORD_V6]);

const NO_NAME_V6: Call<'static> = Call::Reply(2, 3, ASKED_V6, &[]);

/// Replies to the first and to the second question, and what they come to: sorted addresses (RFC 6724, section 6),
/// those of the one that has some, or the status of both.
const REPLIES: &[(Call<'static>, Call<'static>, &str)] = &[
    (
        GOOD_V4,
        GOOD_V6,
        "take 1 status 0 a.test. 2001:db8::1 192.0.2.1\n",
    ),
    (NO_NAME_V4, GOOD_V6, "take 1 status 0 a.test. 2001:db8::1\n"),
    (GOOD_V4, NO_NAME_V6, "take 1 status 0 a.test. 192.0.2.1\n"),
    (EMPTY_V4, NO_NAME_V6, "take 1 status 1 .\n"),
];

/// What both begin with.
const BEGUN: &str = "request 1
start 1 leg 0 on 0 over 0 as 1
start 1 leg 1 on 0 over 0 as 2
";

/// Whether two replies, of which the first is to this leg, come to this, and one is ready behind the second alone.
fn are_merged(
    alloc: Global,
    first: Call<'static>,
    second: Call<'static>,
    leg: u8,
    taken: &str,
) -> Result<bool, Fail> {
    let calls = [
        ASK,
        START_V4,
        START_V6,
        first,
        Call::Take,
        second,
        Call::Take,
    ];
    let lines = merged_lines(alloc, leg, taken)?;
    is_answered(alloc, PLAIN, &calls, lines.as_str())
}

/// What is answered then.
fn merged_lines(alloc: Global, leg: u8, taken: &str) -> Result<String, Fail> {
    let other = 1u8.saturating_sub(leg);
    Ok(format!(in alloc; "{BEGUN}matched 1 leg {leg}\nnone ready\nmatched 1 leg {other}\n{taken}")?)
}

/// The replies come in order.
#[test]
fn both_replies_are_merged(rt: HostRuntime) -> Result<(), Fail> {
    for (first, second, taken) in REPLIES {
        assert!(rt; are_merged(rt.alloc(), *first, *second, 0, taken)?);
    }
    Ok(())
}

/// The reply to the second question comes first.
#[test]
fn replies_are_merged_turned_round(rt: HostRuntime) -> Result<(), Fail> {
    for (first, second, taken) in REPLIES {
        assert!(rt; are_merged(rt.alloc(), *second, *first, 1, taken)?);
    }
    Ok(())
}

/// One leg has its reply, and the other one's attempts fail until they are spent.
const ONE_FAILS: &[Call<'static>] = &[
    ASK,
    START_V4,
    START_V6,
    GOOD_V4,
    Call::Fault(0),
    START_V6,
    Call::Fault(0),
    START_V6,
    Call::Fault(0),
    Call::Take,
];

#[test]
fn a_leg_that_fails_leaves_the_other(rt: HostRuntime) -> Result<(), Fail> {
    let lines = "request 1
start 1 leg 0 on 0 over 0 as 1
start 1 leg 1 on 0 over 0 as 2
matched 1 leg 0
failed 1
start 1 leg 1 on 0 over 0 as 2
failed 1
start 1 leg 1 on 0 over 0 as 2
failed 1
take 1 status 0 a.test. 192.0.2.1
";
    assert!(rt; is_answered(rt.alloc(), PLAIN, ONE_FAILS, lines)?);
    Ok(())
}

/// Each of three faults fails both attempts. A refused connection has the code 11 in c-ares.
const BOTH_FAIL: &[Call<'static>] = &[
    ASK,
    START_V4,
    START_V6,
    Call::Fault(0),
    START_V4,
    START_V6,
    Call::Fault(0),
    START_V4,
    START_V6,
    Call::Fault(0),
    Call::Take,
];

#[test]
fn a_fault_fails_both_legs(rt: HostRuntime) -> Result<(), Fail> {
    let lines = "request 1
start 1 leg 0 on 0 over 0 as 1
start 1 leg 1 on 0 over 0 as 2
failed 2
start 1 leg 0 on 0 over 0 as 1
start 1 leg 1 on 0 over 0 as 2
failed 2
start 1 leg 0 on 0 over 0 as 1
start 1 leg 1 on 0 over 0 as 2
failed 2
take 1 status 11 .
";
    assert!(rt; is_answered(rt.alloc(), PLAIN, BOTH_FAIL, lines)?);
    Ok(())
}

/// One leg waits and one is in flight where one of two has begun.
#[test]
fn legs_are_counted_one_by_one(rt: HostRuntime) -> Result<(), Fail> {
    let lines = "request 1
start 1 leg 0 on 0 over 0 as 1
pending 1 ready 0 waiting 1 flying 1 due 2000 busy 1
cancelled 1
";
    let calls = [ASK, START_V4, Call::Look, Call::Cancel];
    assert!(rt; is_answered(rt.alloc(), PLAIN, &calls, lines)?);
    Ok(())
}

/// Two domains to search (resolv.conf(5)); a name without a dot is asked behind them.
const SEARCHED: &[u8] = b"nameserver 192.0.2.53\nsearch one.example two.example\n";

/// The questions for the addresses of www.one.example and www.two.example.
const ONE_V4: &[u8] = b"\x03www\x03one\x07example\0\0\x01\0\x01";

const ONE_V6: &[u8] = b"\x03www\x03one\x07example\0\0\x1c\0\x01";

const TWO_V4: &[u8] = b"\x03www\x03two\x07example\0\0\x01\0\x01";

const TWO_V6: &[u8] = b"\x03www\x03two\x07example\0\0\x1c\0\x01";

/// The first name doesn't exist, and the second has an address of each family.
const NEXT_NAME: &[Call<'static>] = &[
    Call::Ask(Request::Host(b"www", Family::Any)),
    START_V4,
    START_V6,
    Call::Reply(1, 3, ONE_V4, &[]),
    Call::Reply(2, 3, ONE_V6, &[]),
    Call::Take,
    START_V4,
    START_V6,
    Call::Reply(1, 0, TWO_V4, &[RECORD_V4]),
    Call::Reply(2, 0, TWO_V6, &[RECORD_V6]),
    Call::Take,
];

#[test]
fn both_questions_go_on_to_the_next_name(rt: HostRuntime) -> Result<(), Fail> {
    let lines = "request 1
start 1 leg 0 on 0 over 0 as 1
start 1 leg 1 on 0 over 0 as 2
matched 1 leg 0
matched 1 leg 1
none ready
start 1 leg 2 on 0 over 0 as 1
start 1 leg 3 on 0 over 0 as 2
matched 1 leg 2
matched 1 leg 3
take 1 status 0 www.two.example. 2001:db8::1 192.0.2.1
";
    assert!(rt; is_answered(rt.alloc(), SEARCHED, NEXT_NAME, lines)?);
    Ok(())
}
