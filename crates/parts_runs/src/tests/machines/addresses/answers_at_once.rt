//! What is answered without asking a server.

use super::*;

/// A hosts file as systems have it.
const HOSTS: &[u8] =
    b"127.0.0.1 localhost\n127.0.1.1 box box.test\n::1 ip6-localhost ip6-loopback localhost\n";

const LOCAL_V4: Addr = Addr::V4(0x7f00_0001);

const LOCAL_V6: Addr = Addr::V6(1);

const BOX: Addr = Addr::V4(0x7f00_0101);

const OTHER: Addr = Addr::V4(0xc000_0207);

/// A host, which addresses are asked, whether they stay as they stand, where they are looked up, and the answer.
type Row = (&'static str, Family, bool, Lookups, Option<Expected>);

/// Each rule in turn, and no answer where the names are to be asked.
const ROWS: &[Row] = &[
    (
        "192.0.2.7",
        Family::Any,
        false,
        Lookups::FilesDns,
        Some((0, &[OTHER], ".")),
    ),
    (
        "192.0.2.7",
        Family::V6,
        false,
        Lookups::FilesDns,
        Some((1, &[], ".")),
    ),
    (
        "a..b",
        Family::Any,
        false,
        Lookups::FilesDns,
        Some((8, &[], ".")),
    ),
    (
        "x.ONION.",
        Family::Any,
        false,
        Lookups::Files,
        Some((4, &[], ".")),
    ),
    (
        "localhost",
        Family::Any,
        false,
        Lookups::FilesDns,
        Some((0, &[LOCAL_V6, LOCAL_V4], "localhost.")),
    ),
    (
        "localhost",
        Family::Any,
        true,
        Lookups::FilesDns,
        Some((0, &[LOCAL_V4, LOCAL_V6], "localhost.")),
    ),
    (
        "IP6-Loopback",
        Family::Any,
        false,
        Lookups::Files,
        Some((0, &[LOCAL_V6], "ip6-localhost.")),
    ),
    (
        "box.test.",
        Family::V4,
        false,
        Lookups::FilesDns,
        Some((0, &[BOX], "box.")),
    ),
    ("box", Family::V6, false, Lookups::FilesDns, None),
    ("box", Family::Any, false, Lookups::Dns, None),
    (
        "a.localhost",
        Family::V4,
        false,
        Lookups::FilesDns,
        Some((0, &[LOCAL_V4], "a.localhost.")),
    ),
    (
        "localhost",
        Family::Any,
        false,
        Lookups::Dns,
        Some((0, &[LOCAL_V6, LOCAL_V4], "localhost.")),
    ),
    (
        "LocalHost",
        Family::V6,
        true,
        Lookups::Dns,
        Some((0, &[LOCAL_V6], "LocalHost.")),
    ),
    (
        "example.com",
        Family::Any,
        false,
        Lookups::Files,
        Some((4, &[], ".")),
    ),
    ("example.com", Family::Any, false, Lookups::FilesDns, None),
];

/// Options with these lookups, and else the default ones.
fn options_with(alloc: Global, lookups: Lookups) -> Result<Options, NoMemory> {
    let mut options = Options::plain(alloc)?;
    options.set_lookups(lookups);
    Ok(options)
}

/// The answer at once of a request under these options.
fn answer_under(alloc: Global, spec: &Spec, options: &Options) -> Result<Option<Answer>, Fail> {
    let hosts = Hosts::read(alloc, HOSTS)?;
    Ok(at_once(alloc, spec, 7, options, &hosts)?)
}

/// The answer at once of a request.
fn answer_to(alloc: Global, spec: &Spec, lookups: Lookups) -> Result<Option<Answer>, Fail> {
    let options = options_with(alloc, lookups)?;
    answer_under(alloc, spec, &options)
}

fn address_of(alloc: Global, host: &str, family: Family, nosort: bool) -> Result<Spec, NoMemory> {
    let host = Bytes::of(alloc, host.as_bytes())?;
    Ok(Spec::Address {
        host,
        family,
        nosort,
    })
}

/// Whether it is the expected answer, or there is none where none is expected.
fn is_answer(
    alloc: Global,
    answer: &Option<Answer>,
    expected: &Option<Expected>,
) -> Result<bool, NoMemory> {
    match (answer, expected) {
        (Some(answer), Some(expected)) => is_expected(alloc, answer, expected),
        (None, None) => Ok(true),
        _ => Ok(false),
    }
}

/// Whether a request is answered so.
fn answers_so(
    alloc: Global,
    spec: &Spec,
    lookups: Lookups,
    expected: &Option<Expected>,
) -> Result<bool, Fail> {
    let answer = answer_to(alloc, spec, lookups)?;
    Ok(is_answer(alloc, &answer, expected)?)
}

/// Whether the request of a row is.
fn is_answered(alloc: Global, row: &Row) -> Result<bool, Fail> {
    let (host, family, nosort, lookups, expected) = *row;
    let spec = address_of(alloc, host, family, nosort)?;
    answers_so(alloc, &spec, lookups, &expected)
}

#[test]
fn hosts_are_answered_at_once(rt: HostRuntime) -> Result<(), Fail> {
    for row in ROWS {
        assert!(rt; is_answered(rt.alloc(), row)?);
    }
    Ok(())
}

/// The code of the answer at once, or 255 where there is none.
fn code_of(alloc: Global, spec: &Spec) -> Result<u8, Fail> {
    Ok(match answer_to(alloc, spec, Lookups::FilesDns)? {
        Some(answer) => answer.status.code(),
        None => 255,
    })
}

/// The code where a query asks a text.
fn code_of_query(alloc: Global, text: &str) -> Result<u8, Fail> {
    let spec = Spec::Query {
        name: Bytes::of(alloc, text.as_bytes())?,
        kind: 1,
        class: 1,
    };
    code_of(alloc, &spec)
}

/// The code where a search asks a text.
fn code_of_search(alloc: Global, text: &str) -> Result<u8, Fail> {
    let spec = Spec::Search {
        name: Bytes::of(alloc, text.as_bytes())?,
        kind: 1,
        class: 1,
    };
    code_of(alloc, &spec)
}

/// Texts, and the code of the answer at once where a query or a search asks them. The first four are no names: an empty
/// label, a backslash at the end, a label of 64 bytes, and labels that take 256 bytes (RFC 1035, sections 2.3.4 and 5.1).
const NAMES: &[(&str, u8)] = &[
    ("a..b", 8),
    ("a\\", 8),
    (
        "aaaaaaaaaaaaaaaaaaaaaaaaaaaaaaaaaaaaaaaaaaaaaaaaaaaaaaaaaaaaaaaa",
        8,
    ),
    (
        "aaaaaaaaaaaaaaaaaaaaaaaaaaaaaaaaaaaaaaaaaaaaaaaaaaaaaaaaaaaaaaa.aaaaaaaaaaaaaaaaaaaaaaaaaaaaaaaaaaaaaaaaaaaaaaaaaaaaaaaaaaaaaaa.aaaaaaaaaaaaaaaaaaaaaaaaaaaaaaaaaaaaaaaaaaaaaaaaaaaaaaaaaaaaaaa.aaaaaaaaaaaaaaaaaaaaaaaaaaaaaaaaaaaaaaaaaaaaaaaaaaaaaaaaaaaaaa",
        8,
    ),
    ("x.onion", 4),
    ("localhost", 255),
];

// A query and a search are answered at once for a text that is no name and for a hidden service's name alone.
#[test]
fn names_are_asked(rt: HostRuntime) -> Result<(), Fail> {
    for (text, code) in NAMES {
        assert!(rt; code_of_query(rt.alloc(), text)? == *code);
        assert!(rt; code_of_search(rt.alloc(), text)? == *code);
    }
    assert!(rt; code_of(rt.alloc(), &Spec::Reverse { address: LOCAL_V4 })? == 255);
    Ok(())
}
