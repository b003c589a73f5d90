//! The order of the addresses that are answered (RFC 6724, section 6).

use super::calls::{Call, Request, answers_so, channel_of, is_answered};
use super::{ONE, PLAIN};
use net_addr::{Addr, AddrList, Family};
use resolv_options::{Options, read_resolv};
use std::alloc::Global;
use std::test::Fail;

/// The questions for the addresses of www.example.test.
const ASKED_V4: &[u8] = b"\x03www\x07example\x04test\0\0\x01\0\x01";

const ASKED_V6: &[u8] = b"\x03www\x07example\x04test\0\0\x1c\0\x01";

/// Records for the name of the question: 192.0.2.1, 198.51.100.121,
const A_1: &[u8] = b"\xc0\x0c\0\x01\0\x01\0\0\0\x3c\0\x04\xc0\0\x02\x01";

const A_121: &[u8] = b"\xc0\x0c\0\x01\0\x01\0\0\0\x3c\0\x04\xc6\x33\x64\x79";

/// 2001:db8:1::1, 2001:db8::5 and fe80::1.
const AAAA_1_1: &[u8] =
    b"\xc0\x0c\0\x1c\0\x01\0\0\0\x3c\0\x10\x20\x01\x0d\xb8\0\x01\0\0\0\0\0\0\0\0\0\x01";

const AAAA_5: &[u8] =
    b"\xc0\x0c\0\x1c\0\x01\0\0\0\x3c\0\x10\x20\x01\x0d\xb8\0\0\0\0\0\0\0\0\0\0\0\x05";

const AAAA_LOCAL: &[u8] =
    b"\xc0\x0c\0\x1c\0\x01\0\0\0\x3c\0\x10\xfe\x80\0\0\0\0\0\0\0\0\0\0\0\0\0\x01";

const ASK: Call<'static> = Call::Ask(Request::Host(b"www.example.test.", Family::Any));

const START_V4: Call<'static> = Call::Start(1, 0);

const START_V6: Call<'static> = Call::Start(2, 0);

/// How each begins.
const BEGUN: &str = "request 1
start 1 leg 0 on 0 over 0 as 1
start 1 leg 1 on 0 over 0 as 2
";

/// The answers of one address of IPv4 and two of IPv6, and those of an address of each family.
const THREE: &[Call<'static>] = &[
    ASK,
    START_V4,
    START_V6,
    Call::Reply(1, 0, ASKED_V4, &[A_1]),
    Call::Reply(2, 0, ASKED_V6, &[AAAA_5, AAAA_LOCAL]),
    Call::Take,
];

const TWO: &[Call<'static>] = &[
    ASK,
    START_V4,
    START_V6,
    Call::Reply(1, 0, ASKED_V4, &[A_121]),
    Call::Reply(2, 0, ASKED_V6, &[AAAA_1_1]),
    Call::Take,
];

/// To a machine without addresses of its own the higher precedence comes first (rule 6), and then the smaller scope
/// (rule 8).
#[test]
fn smaller_scopes_come_first(rt: HostRuntime) -> Result<(), Fail> {
    let lines = "request 1
start 1 leg 0 on 0 over 0 as 1
start 1 leg 1 on 0 over 0 as 2
matched 1 leg 0
matched 1 leg 1
take 1 status 0 www.example.test. fe80::1 2001:db8::5 192.0.2.1
";
    assert!(rt; is_answered(rt.alloc(), PLAIN, THREE, lines)?);
    Ok(())
}

/// A machine's own addresses: 2001:db8:1::2, fe80::1 and 169.254.13.78.
const SOURCES: [Addr; 3] = [
    Addr::V6(0x2001_0db8_0001_0000_0000_0000_0000_0002),
    Addr::V6(0xfe80_0000_0000_0000_0000_0000_0000_0001),
    Addr::V4(0xa9fe_0d4e),
];

/// The options of a channel of that machine.
fn options_with_sources(alloc: Global) -> Result<Options, Fail> {
    let sources = AddrList::of(alloc, &SOURCES)?;
    let mut options = read_resolv(alloc, PLAIN)?;
    options.set_sources(sources);
    Ok(options)
}

/// Whether a channel of that machine answers two addresses by these lines.
fn are_sorted_so(alloc: Global, lines: &str) -> Result<bool, Fail> {
    let options = options_with_sources(alloc)?;
    answers_so(alloc, &mut channel_of(alloc, options)?, TWO, lines)
}

/// The source of 198.51.100.121 has another scope (rule 2; the first example of section 10.2).
#[test]
fn matching_scopes_come_first(rt: HostRuntime) -> Result<(), Fail> {
    let lines = "request 1
start 1 leg 0 on 0 over 0 as 1
start 1 leg 1 on 0 over 0 as 2
matched 1 leg 0
matched 1 leg 1
take 1 status 0 www.example.test. 2001:db8:1::1 198.51.100.121
";
    assert!(rt; are_sorted_so(rt.alloc(), lines)?);
    Ok(())
}

/// Requests, what becomes of the AAAA question of each, and the answers: sorted; of one family, where the other
/// question is not answered in time; in the order in which they came.
const ANSWERS: &[(Request<'static>, Call<'static>, &str)] = &[
    (
        Request::Host(b"www.example.test.", Family::Any),
        Call::Reply(2, 0, ASKED_V6, &[AAAA_5]),
        "matched 1 leg 1\ntake 1 status 0 www.example.test. 2001:db8::5 192.0.2.1\n",
    ),
    (
        Request::Host(b"www.example.test.", Family::Any),
        Call::Expire(2000),
        "expired 1 leg 1\ntake 1 status 0 www.example.test. 192.0.2.1\n",
    ),
    (
        Request::Unsorted(b"www.example.test."),
        Call::Reply(2, 0, ASKED_V6, &[AAAA_5]),
        "matched 1 leg 1\ntake 1 status 0 www.example.test. 192.0.2.1 2001:db8::5\n",
    ),
];

const GOOD_V4: Call<'static> = Call::Reply(1, 0, ASKED_V4, &[A_1]);

/// Whether a request is answered so, where this becomes of its AAAA question.
fn ends_in(
    alloc: Global,
    request: Request<'static>,
    second: Call<'static>,
    end: &str,
) -> Result<bool, Fail> {
    let calls = [
        Call::Ask(request),
        START_V4,
        START_V6,
        GOOD_V4,
        second,
        Call::Take,
    ];
    let lines = format!(in alloc; "{BEGUN}matched 1 leg 0\n{end}")?;
    is_answered(alloc, ONE, &calls, lines.as_str())
}

/// The one server is asked once for each.
#[test]
fn addresses_of_both_families_are_answered(rt: HostRuntime) -> Result<(), Fail> {
    for (request, second, end) in ANSWERS {
        assert!(rt; ends_in(rt.alloc(), *request, *second, end)?);
    }
    Ok(())
}
