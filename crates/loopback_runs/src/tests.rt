//! `adig` asks the nameserver of `tns`, each over its real network; and so does `ahost` with workers (`workers`).

mod serving;
mod workers;

use adig_tool::run as ask;
use net_world::{MemFiles, MemSink, World};
use serving::serving;
use sock_engine::SockWorld;
use std::alloc::Global;
use std::collections::BTreeMap;
use std::test::Fail;
use std::thread::Threads;
use stored_run::{page_status, replayed};

/// The zone: an address, and an alias of it.
const ZONE: &[u8] = b"a.test. 60 A 192.0.2.1\nb.test. 60 CNAME a.test.\n";

/// The words that ask the nameserver of 127.0.0.1 for its page, or for the book of the run.
const PAGE: &str = "--server 127.0.0.1 --port";

const BOOK: &str = "--journal --server 127.0.0.1 --port";

/// These words, the port, and those of a line.
fn words_for<'a>(
    alloc: Global,
    front: &'a str,
    port: &'a str,
    line: &'a str,
) -> Result<Vec<&'a str>, Fail> {
    let mut words = Vec::new(alloc);
    for word in front.split(' ') {
        words.push(word)?;
    }
    words.push(port)?;
    for word in line.split(' ') {
        words.push(word)?;
    }
    Ok(words)
}

/// The exit status of `adig` with these words, over this network and without files. No other function calls it: its clauses
/// are long, and who calls this doesn't have them.
fn status_of<W: World>(alloc: Global, words: &[&str], world: &mut W, sink: &mut MemSink) -> u8 {
    let mut files = MemFiles::make(BTreeMap::new(alloc), Vec::new(alloc));
    ask(alloc, words, &mut files, world, sink, 1000).status
}

/// What a run comes to: its exit status, and what it put.
#[derive(Drop)]
struct Outcome {
    status: u8,
    put: Vec<u8>,
}

impl Outcome {
    /// Whether a run came to this.
    fn is(&self, status: u8, put: &[u8]) -> bool {
        self.status == status && self.put.as_slice() == put
    }
}

/// What `adig` comes to with these words, over this network.
fn asked<W: World>(alloc: Global, words: &[&str], world: &mut W) -> Result<Outcome, Fail> {
    let mut sink = MemSink::make(Vec::new(alloc));
    let status = status_of(alloc, words, world, &mut sink);
    let put = sink.bytes().to_vec(alloc)?;
    Ok(Outcome { status, put })
}

/// What it comes to with these words in front, the port, and those of the line.
fn asked_at<W: World>(
    alloc: Global,
    front: &str,
    port: u16,
    line: &str,
    world: &mut W,
) -> Result<Outcome, Fail> {
    let port = format!(in alloc; "{port}")?;
    let words = words_for(alloc, front, port.as_str(), line)?;
    asked(alloc, words.as_slice(), world)
}

/// What it comes to over this network, where a nameserver in a thread serves one message, and ends with exit status 0.
fn outcome_of<R: Threads, W: World>(
    threads: &R,
    rt: HostRuntime,
    front: &str,
    line: &str,
    world: &mut W,
) -> Result<Outcome, Fail> {
    let (child, port) = serving(threads, rt, ZONE, "1")?;
    let outcome = asked_at(rt.alloc(), front, port, line, world)?;
    if child.join(threads) == 0 {
        Ok(outcome)
    } else {
        Err("the nameserver failed")?
    }
}

/// A question, the exit status, and the page: up to the identifier, which is drawn at random, and behind it.
#[derive(Clone, Copy)]
struct Case {
    line: &'static str,
    status: u8,
    head: &'static str,
    tail: &'static str,
}

/// Over UDP and TCP: an address, an alias, and a name that isn't there.
const CASES: &[Case] = &[
    Case {
        line: "--no-edns a.test",
        status: 0,
        head: ";; a.test IN A\n;; status 0 SUCCESS\n;; id ",
        tail: " rcode 0 flags qr aa rd ra\n;; ANSWER\na.test. 60 IN A 192.0.2.1\n",
    },
    Case {
        line: "--no-edns --tcp a.test",
        status: 0,
        head: ";; a.test IN A\n;; status 0 SUCCESS\n;; id ",
        tail: " rcode 0 flags qr aa rd ra\n;; ANSWER\na.test. 60 IN A 192.0.2.1\n",
    },
    Case {
        line: "--no-edns b.test",
        status: 0,
        head: ";; b.test IN A\n;; status 0 SUCCESS\n;; id ",
        tail: " rcode 0 flags qr aa rd ra\n;; ANSWER\nb.test. 60 IN CNAME a.test.\na.test. 60 IN A 192.0.2.1\n",
    },
    Case {
        line: "--no-edns c.test",
        status: 1,
        head: ";; c.test IN A\n;; status 4 ENOTFOUND\n;; id ",
        tail: " rcode 3 flags qr aa rd ra\n",
    },
];

/// Whether a page is this, with the digits of one number between its head and its tail, and nothing else.
fn is_between(page: &[u8], head: &[u8], tail: &[u8]) -> bool {
    let Some(rest) = page.strip_prefix(head) else {
        return false;
    };
    match rest.strip_suffix(tail) {
        Some(number) => !number.is_empty() && are_digits(number),
        None => false,
    }
}

/// Whether all of these bytes are digits.
fn are_digits(bytes: &[u8]) -> bool {
    for byte in bytes {
        if !byte.is_ascii_digit() {
            return false;
        }
    }
    true
}

/// Whether the nameserver, in a thread, and `adig` end as the case has it, and the page is put.
fn is_answered<R: Threads>(threads: &R, rt: HostRuntime, case: &Case) -> Result<bool, Fail> {
    let outcome = outcome_of(threads, rt, PAGE, case.line, &mut SockWorld::make(rt)?)?;
    let (head, tail) = (case.head.as_bytes(), case.tail.as_bytes());
    Ok(outcome.status == case.status && is_between(outcome.put.as_slice(), head, tail))
}

/// The line of the first case of which that isn't so; nothing where it is of each.
fn first_unanswered<R: Threads>(threads: &R, rt: HostRuntime) -> Result<&'static str, Fail> {
    for case in CASES {
        if !is_answered(threads, rt, case)? {
            return Ok(case.line);
        }
    }
    Ok("")
}

#[test]
fn adig_asks_the_nameserver(rt: HostRuntime) -> Result<(), Fail> {
    assert_eq!(rt; first_unanswered(&rt, rt)?, "");
    Ok(())
}

/// Whether areplay finds the run of this book lawful, in which one request was accepted, with this status.
fn is_lawful(alloc: Global, book: &[u8], status: &str) -> Result<bool, Fail> {
    let page = replayed(alloc, book)?;
    let tail = format!(in alloc; " entries 1 accepted\n1 {status}\n")?;
    Ok(is_between(page.as_slice(), b"lawful ", tail.as_bytes()))
}

/// Whether they end so, and with `--journal` the book of the run is put in place of the page: it is lawful, and its request has
/// the status of the page.
fn is_booked<R: Threads>(threads: &R, rt: HostRuntime, case: &Case) -> Result<bool, Fail> {
    let outcome = outcome_of(threads, rt, BOOK, case.line, &mut SockWorld::make(rt)?)?;
    let is_so = is_lawful(rt.alloc(), outcome.put.as_slice(), page_status(case.head))?;
    Ok(outcome.status == case.status && is_so)
}

/// The line of the first case of which that isn't so; nothing where it is of each.
fn first_unlawful<R: Threads>(threads: &R, rt: HostRuntime) -> Result<&'static str, Fail> {
    for case in CASES {
        if !is_booked(threads, rt, case)? {
            return Ok(case.line);
        }
    }
    Ok("")
}

#[test]
fn books_of_real_runs_are_lawful(rt: HostRuntime) -> Result<(), Fail> {
    assert_eq!(rt; first_unlawful(&rt, rt)?, "");
    Ok(())
}
