//! Requests that ask the names of a search list.

use super::addresses::RECORD_V4;
use super::calls::{Call, Request, is_answered};
use std::alloc::Global;
use std::test::Fail;

/// Two domains to search (resolv.conf(5)); a name without a dot is asked behind them.
const DOMAINS: &[u8] = b"nameserver 192.0.2.53\nsearch one.example two.example\n";

/// The questions of a search for `www`, in order (RFC 1035, section 4.1.2).
const ONE: &[u8] = b"\x03www\x03one\x07example\0\0\x01\0\x01";

const TWO: &[u8] = b"\x03www\x03two\x07example\0\0\x01\0\x01";

const ITSELF: &[u8] = b"\x03www\0\0\x01\0\x01";

const ASK: Call<'static> = Call::Ask(Request::Search(b"www"));

const START: Call<'static> = Call::Start(1, 0);

/// A reply to a question that isn't asked yet is a stray.
const FOUND: &[Call<'static>] = &[
    ASK,
    START,
    Call::Reply(1, 3, TWO, &[]),
    Call::Reply(1, 3, ONE, &[]),
    START,
    Call::Reply(1, 0, TWO, &[RECORD_V4]),
    Call::Take,
];

#[test]
fn a_search_goes_on_to_an_answer(rt: HostRuntime) -> Result<(), Fail> {
    let lines = "request 1
start 1 leg 0 on 0 over 0 as 1
stray
matched 1 leg 0
start 1 leg 2 on 0 over 0 as 1
matched 1 leg 2
take 1 status 0 .
";
    assert!(rt; is_answered(rt.alloc(), DOMAINS, FOUND, lines)?);
    Ok(())
}

/// Texts that are no names, one for each fault: an empty label, a backslash at the end, a label of 64 bytes, and labels that
/// take 256 bytes (RFC 1035, sections 2.3.4 and 5.1).
const NO_NAMES: &[&[u8]] = &[
    b"a..b",
    b"a\\",
    b"aaaaaaaaaaaaaaaaaaaaaaaaaaaaaaaaaaaaaaaaaaaaaaaaaaaaaaaaaaaaaaaa",
    b"aaaaaaaaaaaaaaaaaaaaaaaaaaaaaaaaaaaaaaaaaaaaaaaaaaaaaaaaaaaaaaa.aaaaaaaaaaaaaaaaaaaaaaaaaaaaaaaaaaaaaaaaaaaaaaaaaaaaaaaaaaaaaaa.aaaaaaaaaaaaaaaaaaaaaaaaaaaaaaaaaaaaaaaaaaaaaaaaaaaaaaaaaaaaaaa.aaaaaaaaaaaaaaaaaaaaaaaaaaaaaaaaaaaaaaaaaaaaaaaaaaaaaaaaaaaaaa",
];

/// Whether a query and a search for a text end at once, since it is no name.
fn ends_at_once(alloc: Global, text: &[u8]) -> Result<bool, Fail> {
    let query = [Call::Ask(Request::Query(text)), Call::Take];
    let search = [Call::Ask(Request::Search(text)), Call::Take];
    let lines = "request 1\ntake 1 status 8 .\n";
    Ok(is_answered(alloc, DOMAINS, &query, lines)? && is_answered(alloc, DOMAINS, &search, lines)?)
}

#[test]
fn no_name_is_asked(rt: HostRuntime) -> Result<(), Fail> {
    for text in NO_NAMES {
        assert!(rt; ends_at_once(rt.alloc(), text)?);
    }
    Ok(())
}

/// Replies to the three questions: that the name has no record, and that there is no such name (response code 3).
const EMPTY_ONE: Call<'static> = Call::Reply(1, 0, ONE, &[]);

const NO_ONE: Call<'static> = Call::Reply(1, 3, ONE, &[]);

const NO_TWO: Call<'static> = Call::Reply(1, 3, TWO, &[]);

const NOT_ITSELF: Call<'static> = Call::Reply(1, 3, ITSELF, &[]);

/// Replies to the first question, and the status: 1 where a name exists without a record, whatever comes behind it,
/// else 4.
const REPLIES: &[(Call<'static>, u8)] = &[(EMPTY_ONE, 1), (NO_ONE, 4)];

/// Whether a search ends with this status, whose first name has this reply, and whose other names don't exist.
fn ends_with(alloc: Global, one: Call<'static>, status: u8) -> Result<bool, Fail> {
    let calls = [
        ASK,
        START,
        one,
        START,
        NO_TWO,
        START,
        NOT_ITSELF,
        Call::Take,
    ];
    let lines = format!(in alloc;
        "request 1
start 1 leg 0 on 0 over 0 as 1
matched 1 leg 0
start 1 leg 2 on 0 over 0 as 1
matched 1 leg 2
start 1 leg 4 on 0 over 0 as 1
matched 1 leg 4
take 1 status {status} .
"
    )?;
    is_answered(alloc, DOMAINS, &calls, lines.as_str())
}

#[test]
fn a_search_remembers_a_name_without_data(rt: HostRuntime) -> Result<(), Fail> {
    for (one, status) in REPLIES {
        assert!(rt; ends_with(rt.alloc(), *one, *status)?);
    }
    Ok(())
}

/// With as many dots as `ndots` the name itself is asked first.
const DOTTED: &[Call<'static>] = &[
    Call::Ask(Request::Search(b"www.org")),
    START,
    Call::Reply(1, 3, b"\x03www\x03org\0\0\x01\0\x01", &[]),
    START,
    Call::Reply(1, 3, b"\x03www\x03org\x03one\x07example\0\0\x01\0\x01", &[]),
];

#[test]
fn a_name_with_dots_is_asked_first(rt: HostRuntime) -> Result<(), Fail> {
    let lines = "request 1
start 1 leg 0 on 0 over 0 as 1
matched 1 leg 0
start 1 leg 2 on 0 over 0 as 1
matched 1 leg 2
";
    assert!(rt; is_answered(rt.alloc(), DOMAINS, DOTTED, lines)?);
    Ok(())
}

/// A server refuses each of the three attempts: the search ends, though there are more candidates.
const REFUSED: &[Call<'static>] = &[
    ASK,
    START,
    Call::Reply(1, 5, ONE, &[]),
    START,
    Call::Reply(1, 5, ONE, &[]),
    START,
    Call::Reply(1, 5, ONE, &[]),
    Call::Take,
];

#[test]
fn a_search_ends_where_it_is_refused(rt: HostRuntime) -> Result<(), Fail> {
    let lines = "request 1
start 1 leg 0 on 0 over 0 as 1
matched 1 leg 0
start 1 leg 0 on 0 over 0 as 1
matched 1 leg 0
start 1 leg 0 on 0 over 0 as 1
matched 1 leg 0
take 1 status 6 .
";
    assert!(rt; is_answered(rt.alloc(), DOMAINS, REFUSED, lines)?);
    Ok(())
}
