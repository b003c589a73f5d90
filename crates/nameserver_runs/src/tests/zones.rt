//! Outside examples: zones, queries and replies, byte by byte.

use std::alloc::Global;
use std::test::Fail;
use test_nameserver::*;

/// A query for the address of a.test., with RD (RFC 1035, section 4.1).
const QUERY_A: &[u8] = b"\x12\x34\x01\0\0\x01\0\0\0\0\0\0\x01a\x04test\0\0\x01\0\x01";

/// A query for the texts of a.test.
const QUERY_TXT: &[u8] = b"\x12\x34\x01\0\0\x01\0\0\0\0\0\0\x01a\x04test\0\0\x10\0\x01";

/// That query with an OPT record of size 1232 (RFC 6891, section 6.1.2).
const QUERY_OPT: &[u8] =
    b"\x12\x34\x01\0\0\x01\0\0\0\0\0\x01\x01a\x04test\0\0\x10\0\x01\0\0\x29\x04\xd0\0\0\0\0\0\0";

/// A query, and its reply over UDP.
type Case = (&'static [u8], &'static [u8]);

/// What a zone answers over UDP, or `-` where it answers nothing.
fn answered(alloc: Global, zone: &Zone, query: &[u8]) -> Result<Bytes, NoMemory> {
    match answer(alloc, zone, query, false)? {
        Some(reply) => Ok(reply),
        None => Bytes::of(alloc, b"-"),
    }
}

/// Whether a zone answers so.
fn is_answered(alloc: Global, zone: &Zone, case: Case) -> Result<bool, NoMemory> {
    let (query, reply) = case;
    Ok(answered(alloc, zone, query)?.as_slice() == reply)
}

/// Whether the zone of this text answers so.
fn text_answers(alloc: Global, text: &str, case: Case) -> Result<bool, Fail> {
    let zone = Zone::read(alloc, text.as_bytes())?;
    Ok(is_answered(alloc, &zone, case)?)
}

/// Whether a zone of four hosts answers so.
fn hosts_answer(alloc: Global, case: Case) -> Result<bool, Fail> {
    let zone = Zone::load(alloc, 4)?;
    Ok(is_answered(alloc, &zone, case)?)
}

/// A query for the address of h3.load.test., and the reply of a zone without it.
const QUERY_NONE: &[u8] = b"\x12\x34\x01\0\0\x01\0\0\0\0\0\0\x02h3\x04load\x04test\0\0\x01\0\x01";

const REPLY_NONE: &[u8] = b"\x12\x34\x85\x83\0\x01\0\0\0\0\0\0\x02h3\x04load\x04test\0\0\x01\0\x01";

/// A query for the address of h2.load.test., without RD and with a capital letter, and the reply.
const QUERY_HOST: &[u8] = b"\x12\x34\0\0\0\x01\0\0\0\0\0\0\x02H2\x04load\x04test\0\0\x01\0\x01";

const REPLY_HOST: &[u8] =
    b"\x12\x34\x84\x80\0\x01\0\x01\0\0\0\0\x02H2\x04load\x04test\0\0\x01\0\x01\x02h2\x04load\x04test\0\0\x01\0\x01\0\0\0\x3c\0\x04\x0a\0\0\x02";

// By hand after RFC 1035, section 4.1: QR, AA, RD and RA, and the response code; names without pointers. The fourth host
// isn't there.
#[test]
fn hosts_are_answered(rt: HostRuntime) -> Result<(), Fail> {
    assert!(rt; hosts_answer(rt.alloc(), (QUERY_NONE, REPLY_NONE))?);
    assert!(rt; hosts_answer(rt.alloc(), (QUERY_HOST, REPLY_HOST))?);
    Ok(())
}

/// A zone in which a.test. is an alias of b.test.
const ALIAS: &str = "a.test. 60 CNAME b.test.\nb.test. 60 A 192.0.2.7";

/// The reply with the alias and the address.
const REPLY_A: &[u8] =
    b"\x12\x34\x85\x80\0\x01\0\x02\0\0\0\0\x01a\x04test\0\0\x01\0\x01\x01a\x04test\0\0\x05\0\x01\0\0\0\x3c\0\x08\x01b\x04test\0\x01b\x04test\0\0\x01\0\x01\0\0\0\x3c\0\x04\xc0\0\x02\x07";

/// The reply with the alias alone: the name is there, and has no text; its alias leads to a name without one.
const REPLY_OPT: &[u8] =
    b"\x12\x34\x85\x80\0\x01\0\x01\0\0\0\x01\x01a\x04test\0\0\x10\0\x01\x01a\x04test\0\0\x05\0\x01\0\0\0\x3c\0\x08\x01b\x04test\0\0\0\x29\x04\xd0\0\0\0\0\0\0";

#[test]
fn aliases_are_answered(rt: HostRuntime) -> Result<(), Fail> {
    assert!(rt; text_answers(rt.alloc(), ALIAS, (QUERY_A, REPLY_A))?);
    assert!(rt; text_answers(rt.alloc(), ALIAS, (QUERY_OPT, REPLY_OPT))?);
    Ok(())
}

/// A query with OPCODE 2, which isn't implemented, and the reply.
const QUERY_STATUS: &[u8] = b"\x12\x34\x10\0\0\x01\0\0\0\0\0\0\x01a\x04test\0\0\x01\0\x01";

const REPLY_STATUS: &[u8] = b"\x12\x34\x84\x84\0\x01\0\0\0\0\0\0\x01a\x04test\0\0\x01\0\x01";

/// A response.
const RESPONSE: &[u8] = b"\x12\x34\x81\0\0\x01\0\0\0\0\0\0\x01a\x04test\0\0\x01\0\x01";

/// A query for a name of 256 bytes (RFC 1035, section 2.3.4).
const LONG_QUERY: &[u8] =
    b"\x12\x34\x01\0\0\x01\0\0\0\0\0\0\x3faaaaaaaaaaaaaaaaaaaaaaaaaaaaaaaaaaaaaaaaaaaaaaaaaaaaaaaaaaaaaaa\x3faaaaaaaaaaaaaaaaaaaaaaaaaaaaaaaaaaaaaaaaaaaaaaaaaaaaaaaaaaaaaaa\x3faaaaaaaaaaaaaaaaaaaaaaaaaaaaaaaaaaaaaaaaaaaaaaaaaaaaaaaaaaaaaaa\x3eaaaaaaaaaaaaaaaaaaaaaaaaaaaaaaaaaaaaaaaaaaaaaaaaaaaaaaaaaaaaaa\0\0\x01\0\x01";

/// Other messages, and their replies. A response, a message without a question, bytes that are no message (one for each
/// fault), and a query whose OPT records can't be read, have none.
const OTHERS: &[Case] = &[
    (QUERY_STATUS, REPLY_STATUS),
    (RESPONSE, b"-"),
    (b"\x12\x34\x01\0\0\0\0\0\0\0\0\0", b"-"),
    (b"\x12\x34", b"-"),
    (b"\x12\x34\x01\0\0\x01\0\0\0\0\0\0\x01a", b"-"),
    (b"\x12\x34\x01\0\0\x01\0\0\0\0\0\0\x40\0\x01\0\x01", b"-"),
    (
        b"\x12\x34\x01\0\0\x01\0\0\0\0\0\0\xc0\x0c\0\x01\0\x01",
        b"-",
    ),
    (LONG_QUERY, b"-"),
    (
        b"\x12\x34\x01\0\0\x01\0\x01\0\0\0\0\x01a\x04test\0\0\x01\0\x01\0\0\x01\0\x01\0\0\0\x3c\0\x03abc",
        b"-",
    ),
    (
        b"\x12\x34\x01\0\0\x01\0\0\0\0\0\0\x01a\x04test\0\0\x01\0\x01\0",
        b"-",
    ),
    (
        b"\x12\x34\x01\0\0\x01\0\0\0\0\0\x02\x01a\x04test\0\0\x01\0\x01\0\0\x29\x04\xd0\0\0\0\0\0\0\0\0\x29\x04\xd0\0\0\0\0\0\0",
        b"-",
    ),
    (
        b"\x12\x34\x01\0\0\x01\0\0\0\0\0\x01\x01a\x04test\0\0\x01\0\x01\0\0\x29\x04\xd0\0\0\0\0\0\x03\0\x0a\0",
        b"-",
    ),
];

#[test]
fn other_messages_are_answered(rt: HostRuntime) -> Result<(), Fail> {
    for case in OTHERS {
        assert!(rt; text_answers(rt.alloc(), ALIAS, *case)?);
    }
    Ok(())
}

/// The lines of two texts of a.test., of 255 bytes and of so many.
fn texts(alloc: Global, len: u8) -> Result<Vec<u8>, Fail> {
    let mut lines = Vec::with_capacity(alloc, 512)?;
    lines.extend_from_slice(b"a.test. 60 TXT ")?;
    lines.resize(270, b'x')?;
    lines.extend_from_slice(b"\n#\n\na.test. 60\tTXT  ")?;
    lines.resize(290 + len as usize, b'y')?;
    Ok(lines)
}

/// The zone of these lines.
fn zone_of(alloc: Global, len: u8) -> Result<Zone, Fail> {
    let lines = texts(alloc, len)?;
    Ok(Zone::read(alloc, lines.as_slice())?)
}

/// How many bytes the reply of a zone with such texts has, over TCP or not, or 0 where there is none.
fn length_of(alloc: Global, len: u8, query: &[u8], tcp: bool) -> Result<usize, Fail> {
    let zone = zone_of(alloc, len)?;
    Ok(match answer(alloc, &zone, query, tcp)? {
        Some(reply) => reply.len(),
        None => 0,
    })
}

/// The reply to a query for the texts that is cut.
const REPLY_CUT: &[u8] = b"\x12\x34\x87\x80\0\x01\0\0\0\0\0\0\x01a\x04test\0\0\x10\0\x01";

/// Whether it is the reply of a zone with such texts.
fn is_cut(alloc: Global, len: u8) -> Result<bool, Fail> {
    let zone = zone_of(alloc, len)?;
    Ok(is_answered(alloc, &zone, (QUERY_TXT, REPLY_CUT))?)
}

// The question takes 24 bytes with the header, the first text 274, and the second 19 and its own bytes.
#[test]
fn long_replies_are_cut(rt: HostRuntime) -> Result<(), Fail> {
    let alloc = rt.alloc();
    assert!(rt; length_of(alloc, 195, QUERY_TXT, false)? == 512);
    assert!(rt; is_cut(alloc, 196)?);
    assert!(rt; length_of(alloc, 196, QUERY_OPT, false)? == 524);
    assert!(rt; length_of(alloc, 196, QUERY_TXT, true)? == 513);
    Ok(())
}

/// A line of a text of 255 bytes, which takes 274 in a reply.
const TEXT_LINE: &[u8] =
    b"a.test. 60 TXT xxxxxxxxxxxxxxxxxxxxxxxxxxxxxxxxxxxxxxxxxxxxxxxxxxxxxxxxxxxxxxxxxxxxxxxxxxxxxxxxxxxxxxxxxxxxxxxxxxxxxxxxxxxxxxxxxxxxxxxxxxxxxxxxxxxxxxxxxxxxxxxxxxxxxxxxxxxxxxxxxxxxxxxxxxxxxxxxxxxxxxxxxxxxxxxxxxxxxxxxxxxxxxxxxxxxxxxxxxxxxxxxxxxxxxxxxxxxxxxxxxxxxxxxxxxxxxx\n";

/// Whether the reply of a zone with so many such texts is the one that is cut.
fn is_cut_of(alloc: Global, count: u8) -> Result<bool, Fail> {
    let mut lines = Vec::new(alloc);
    for _ in 0..count {
        lines.extend_from_slice(TEXT_LINE)?;
    }
    let zone = Zone::read(alloc, lines.as_slice())?;
    Ok(is_answered(alloc, &zone, (QUERY_TXT, REPLY_CUT))?)
}

// With the question's 24 bytes 240 texts take 65,784, which no message has (RFC 1035, section 4.2.2).
#[test]
fn the_longest_replies_are_cut(rt: HostRuntime) -> Result<(), Fail> {
    assert!(rt; is_cut_of(rt.alloc(), 240)?);
    Ok(())
}

/// Nine aliases, one behind the other, and a text of the ninth name.
const ALIASES: &str = "a.test. 1 CNAME b
b 1 CNAME c
c 1 CNAME d
d 1 CNAME e
e 1 CNAME f
f 1 CNAME g
g 1 CNAME h
h 1 CNAME i
i 1 TXT t
i 1 CNAME j
j 1 A 192.0.2.1";

/// Whether the reply of this zone counts so many answers, in two bytes (RFC 1035, section 4.1.1).
fn has_answers(alloc: Global, query: &[u8], count: &[u8]) -> Result<bool, Fail> {
    let zone = Zone::read(alloc, ALIASES.as_bytes())?;
    Ok(answered(alloc, &zone, query)?.as_slice().get(6..8) == Some(count))
}

// The eighth alias leads to a name whose records still count, but its alias doesn't.
#[test]
fn eight_aliases_are_followed(rt: HostRuntime) -> Result<(), Fail> {
    assert!(rt; has_answers(rt.alloc(), QUERY_A, b"\0\x08")?);
    assert!(rt; has_answers(rt.alloc(), QUERY_TXT, b"\0\x09")?);
    Ok(())
}

/// Texts of zones, and how many records they have.
const RECORDS: &[(&str, usize)] = &[
    ("a.test. 60 A 192.0.2.1", 1),
    ("", 0),
    (
        "# no\n\na 0 AAAA 2001:db8::1\n a\t2147483647  MX 10 b.test\n",
        2,
    ),
    ("a 1 TXT \"a\nb 1 PTR c\nb 1 NS d", 3),
    ("a.test. 0 A 192.0.2.1\na 1 MX 0 b\na 1 MX 65535 b", 3),
];

/// Texts of no zones, and their first bad line.
const BAD_LINES: &[(&str, u64)] = &[
    ("a.test. 60 A", 1),
    ("a 1 A 192.0.2.1\n# no\na 1 A ::1", 3),
    ("a 1 A 192.0.2.1\n \n", 2),
    ("a 2147483648 A 192.0.2.1", 1),
    ("a 1 a 192.0.2.1", 1),
    ("a 1 MX 65536 b", 1),
    ("a.test. 060 A 192.0.2.1", 1),
    ("a 1 A 192.0.2.1\na 00 A 192.0.2.1", 2),
    ("a +1 A 192.0.2.1", 1),
    ("a 1 MX 010 b", 1),
    ("a 1 SRV 1 1 1 b", 1),
    ("a 1 A 192.0.2.1\r", 1),
    ("a..b 1 A 192.0.2.1", 1),
    ("a 1 A b", 1),
    ("a 1 AAAA 192.0.2.1", 1),
    ("a 1 AAAA b", 1),
    ("a 1 NS a..b", 1),
    ("a 1 MX 1 a..b", 1),
    (LONG_TEXT, 1),
];

/// A text of 256 bytes (RFC 1035, section 3.3).
const LONG_TEXT: &str =
    "a 1 TXT xxxxxxxxxxxxxxxxxxxxxxxxxxxxxxxxxxxxxxxxxxxxxxxxxxxxxxxxxxxxxxxxxxxxxxxxxxxxxxxxxxxxxxxxxxxxxxxxxxxxxxxxxxxxxxxxxxxxxxxxxxxxxxxxxxxxxxxxxxxxxxxxxxxxxxxxxxxxxxxxxxxxxxxxxxxxxxxxxxxxxxxxxxxxxxxxxxxxxxxxxxxxxxxxxxxxxxxxxxxxxxxxxxxxxxxxxxxxxxxxxxxxxxxxxxxxxxxx";

/// How many records a zone's text has.
fn records_in(alloc: Global, text: &str) -> Result<usize, ZoneFault> {
    Ok(Zone::read(alloc, text.as_bytes())?.records().len())
}

/// The first bad line of a zone's text, and 0 where that isn't the fault.
fn bad_line(alloc: Global, text: &str) -> u64 {
    match records_in(alloc, text) {
        Err(ZoneFault::BadLine(line)) => line,
        _ => 0,
    }
}

#[test]
fn lines_are_records(rt: HostRuntime) -> Result<(), Fail> {
    for (text, count) in RECORDS {
        assert!(rt; records_in(rt.alloc(), text)? == *count, "{text}");
    }
    Ok(())
}

#[test]
fn bad_lines_are_found(rt: HostRuntime) {
    for (text, line) in BAD_LINES {
        assert!(rt; bad_line(rt.alloc(), text) == *line, "{text}");
    }
}

// A text of the limit's size is read, and one of a byte more is not.
#[test]
fn only_a_text_above_the_limit_is_refused(rt: HostRuntime) -> Result<(), Fail> {
    let alloc = rt.alloc();
    let mut text = Vec::new(alloc);
    text.resize(1_048_576, b'#')?;
    assert!(rt; Zone::read(alloc, text.as_slice())?.records().is_empty());
    text.push(b'#')?;
    assert!(rt; matches!(Zone::read(alloc, text.as_slice()), Err(ZoneFault::TooLarge)));
    Ok(())
}
