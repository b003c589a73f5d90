//! What words and resolv.conf set: each option by what goes over the network.

use super::outcome::outcome_of;
use super::{RUN, Scenario};
use scenario::Coming;
use std::alloc::Global;
use std::test::Fail;

/// Nine servers, of which eight are kept, and numbers above their limits: 15 dots, 10 attempts; a wait of 0 is passed over
/// (resolv.conf(5); the limits are this project's profile).
const NINE: &[u8] = b"nameserver 192.0.2.1
nameserver 192.0.2.2
nameserver 192.0.2.3
nameserver 192.0.2.4
nameserver 192.0.2.5
nameserver 192.0.2.6
nameserver 192.0.2.7
nameserver 192.0.2.8
nameserver 192.0.2.9
options ndots:99 timeout:0 attempts:77 rotate
";

/// How many lines of the text begin so.
fn lines_with(text: &str, front: &str) -> usize {
    let mut count = 0usize;
    for line in text.split('\n') {
        if line.starts_with(front) {
            count = count.saturating_add(1);
        }
    }
    count
}

/// Whether eight servers are told, each of them is asked ten times, and the first attempt waits for 2 seconds.
fn are_limited(journal: &str, calls: &str) -> bool {
    lines_with(calls, "serve ") == 8
        && lines_with(journal, "start 1 on 7 ") == 10
        && lines_with(journal, "start ") == 80
        && journal.starts_with("accept 1\nstart 1 on 0 over 0 at 0\nexpire 1 at 2000\n")
}

/// Whether a run with the nine servers tells so, and is no success.
fn is_kept_within_limits(alloc: Global) -> Result<bool, Fail> {
    let scenario = Scenario {
        line: "x",
        resolv: Some(NINE),
        ..RUN
    };
    let outcome = outcome_of(alloc, &scenario)?;
    Ok(
        outcome.status == 1
            && outcome.called == 1
            && are_limited(outcome.journal.as_str(), outcome.calls.as_str()),
    )
}

#[test]
fn a_file_is_kept_within_the_limits(rt: HostRuntime) -> Result<(), Fail> {
    assert!(rt; is_kept_within_limits(rt.alloc())?);
    Ok(())
}

/// Two servers of a file.
const TWO: &[u8] = b"nameserver 192.0.2.7\nnameserver 2001:db8::8\noptions use-vc\n";

/// Whether these are the calls of a run in silence, with that file and these words, which may make one turn.
fn calls_so(alloc: Global, line: &str, calls: &str) -> Result<bool, Fail> {
    let scenario = Scenario {
        line,
        resolv: Some(TWO),
        turns: 1,
        ..RUN
    };
    Ok(outcome_of(alloc, &scenario)?.calls.as_str() == calls)
}

/// The words, and the servers, links and waits that come of them and of the file.
const CALLS: &[(&str, &str)] = &[
    (
        "x",
        "serve 0 of 3221225991 at 53\nserve 1 of 42540766411282592856903984951653826568 at 53\nconnect 0 over 1\nwait to 2000\n",
    ),
    (
        "--port 5353 x",
        "serve 0 of 3221225991 at 5353\nserve 1 of 42540766411282592856903984951653826568 at 5353\nconnect 0 over 1\nwait to 2000\n",
    ),
    (
        "--server 192.0.2.53 x",
        "serve 0 of 3221226037 at 53\nconnect 0 over 1\nwait to 2000\n",
    ),
    (
        "--server=192.0.2.53,::1 --port=5353 --timeout 500 x",
        "serve 0 of 3221226037 at 5353\nserve 1 of 1 at 5353\nconnect 0 over 1\nwait to 500\n",
    ),
    (
        "--resolv /none --timeout 60000 x",
        "serve 0 of 2130706433 at 53\nwait to 60000\n",
    ),
];

/// The first of these words whose calls are others; nothing where none are.
fn first_other_calls<'a>(alloc: Global, rows: &'a [(&'a str, &'a str)]) -> Result<&'a str, Fail> {
    for (line, calls) in rows {
        if !calls_so(alloc, line, calls)? {
            return Ok(line);
        }
    }
    Ok("")
}

#[test]
fn words_and_file_set_the_servers(rt: HostRuntime) -> Result<(), Fail> {
    assert_eq!(rt; first_other_calls(rt.alloc(), CALLS)?, "");
    Ok(())
}

/// Words, and the bytes that their one turn sends: type and class, no recursion, no OPT record, and a frame over TCP (RFC 1035,
/// sections 4.1 and 4.2.2).
const SENT: &[(&str, &[u8])] = &[
    (
        "--no-edns --type MX --class CH x",
        b"\x12\x34\x01\0\0\x01\0\0\0\0\0\0\x01x\0\0\x0f\0\x03",
    ),
    (
        "--no-edns --no-recurse --type TYPE65280 --class CLASS7 x",
        b"\x12\x34\0\0\0\x01\0\0\0\0\0\0\x01x\0\xff\0\0\x07",
    ),
    (
        "--type aaaa --class in x",
        b"\x12\x34\x01\0\0\x01\0\0\0\0\0\x01\x01x\0\0\x1c\0\x01\0\0\x29\x04\xd0\0\0\0\0\0\0",
    ),
    (
        "--no-edns --tcp x",
        b"\0\x13\x12\x34\x01\0\0\x01\0\0\0\0\0\0\x01x\0\0\x01\0\x01",
    ),
];

/// Whether a run with these words sends this in its first turn.
fn sends_so(alloc: Global, line: &str, bytes: &[u8]) -> Result<bool, Fail> {
    let scenario = Scenario {
        line,
        turns: 1,
        ..RUN
    };
    Ok(outcome_of(alloc, &scenario)?.sent.as_slice() == bytes)
}

/// The first of these words that send something else; nothing where none do.
fn first_other_sent<'a>(alloc: Global, rows: &'a [(&'a str, &'a [u8])]) -> Result<&'a str, Fail> {
    for (line, bytes) in rows {
        if !sends_so(alloc, line, bytes)? {
            return Ok(line);
        }
    }
    Ok("")
}

#[test]
fn words_set_the_query(rt: HostRuntime) -> Result<(), Fail> {
    assert_eq!(rt; first_other_sent(rt.alloc(), SENT)?, "");
    Ok(())
}

/// A truncated reply, and that of a server that failed, at moment 1 (RFC 1035, section 4.1.1).
const TRUNCATED: &[Coming<'static>] = &[Coming::Datagram {
    from: 1,
    server: 0,
    bytes: b"\x12\x34\x83\x80\0\x01\0\0\0\0\0\0\x01x\0\0\x01\0\x01",
}];

const SERVFAIL: &[Coming<'static>] = &[Coming::Datagram {
    from: 1,
    server: 0,
    bytes: b"\x12\x34\x81\x82\0\x01\0\0\0\0\0\0\x01x\0\0\x01\0\x01",
}];

/// Runs, and how their pages begin: a truncated reply may count, and a failed server's too; with `--primary` the second
/// server isn't asked.
const COUNTS: &[(Scenario<'static>, &str)] = &[
    (
        Scenario {
            line: "--no-edns --ignore-tc x",
            comings: TRUNCATED,
            ..RUN
        },
        ";; x IN A\n;; status 1 ENODATA\n",
    ),
    (
        Scenario {
            line: "--no-edns --no-check x",
            comings: SERVFAIL,
            ..RUN
        },
        ";; x IN A\n;; status 3 ESERVFAIL\n",
    ),
    (
        Scenario {
            line: "--no-edns --primary --tries 1 --server 192.0.2.1,192.0.2.2 x",
            comings: SERVFAIL,
            ..RUN
        },
        ";; x IN A\n;; status 3 ESERVFAIL\n",
    ),
];

/// Whether a run prints a page that begins so, behind one query of 19 bytes.
fn begins_so(alloc: Global, scenario: &Scenario<'_>, front: &str) -> Result<bool, Fail> {
    let outcome = outcome_of(alloc, scenario)?;
    Ok(outcome.put.starts_with(front.as_bytes()) && outcome.sent.len() == 19)
}

/// The words of the first of these runs whose page begins otherwise; nothing where none does.
fn first_other_page<'a>(
    alloc: Global,
    rows: &'a [(Scenario<'a>, &'a str)],
) -> Result<&'a str, Fail> {
    for (scenario, front) in rows {
        if !begins_so(alloc, scenario, front)? {
            return Ok(scenario.line);
        }
    }
    Ok("")
}

#[test]
fn words_set_what_counts(rt: HostRuntime) -> Result<(), Fail> {
    assert_eq!(rt; first_other_page(rt.alloc(), COUNTS)?, "");
    Ok(())
}
