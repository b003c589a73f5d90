//! Whole runs of acache over a network in memory: what was put, what was asked and called for, and what was called.
//!
//! Each query has the identifier 0x1234, the word that the network gives each time. The queries for `a.test` and `b.test`
//! have one question and an OPT record (RFC 1035, section 4.1; RFC 6891, section 6.1.2).

use acache_tool::{Ended, run};
use net_world::{MemSink, ScriptWorld};
use scenario::{Coming, items_of, journal_told, words_of};
use std::alloc::Global;
use std::test::Fail;

/// A run: what it shows, its words, what comes on the network, which of its calls and which puts fail, and how many turns it may
/// make; and what it has to leave: its exit status, what it put, and the lines of its journal.
struct Case {
    shows: &'static str,
    line: &'static str,
    comings: &'static [Coming<'static>],
    fails: &'static [u64],
    put_fails: &'static [u64],
    turns: u64,
    status: u8,
    put: &'static str,
    journal: &'static str,
}

/// A reply with the address 192.0.2.1 for a.test, of ttl 300.
const A_300: &[u8] =
    b"\x12\x34\x81\x80\0\x01\0\x01\0\0\0\0\x01a\x04test\0\0\x01\0\x01\xc0\x0c\0\x01\0\x01\0\0\x01\x2c\0\x04\xc0\0\x02\x01";

/// The same, of ttl 1.
const A_1: &[u8] =
    b"\x12\x34\x81\x80\0\x01\0\x01\0\0\0\0\x01a\x04test\0\0\x01\0\x01\xc0\x0c\0\x01\0\x01\0\0\0\x01\0\x04\xc0\0\x02\x01";

/// The same, of ttl 0.
const A_0: &[u8] =
    b"\x12\x34\x81\x80\0\x01\0\x01\0\0\0\0\x01a\x04test\0\0\x01\0\x01\xc0\x0c\0\x01\0\x01\0\0\0\0\0\x04\xc0\0\x02\x01";

/// The same for b.test, of ttl 300.
const B_300: &[u8] =
    b"\x12\x34\x81\x80\0\x01\0\x01\0\0\0\0\x01b\x04test\0\0\x01\0\x01\xc0\x0c\0\x01\0\x01\0\0\x01\x2c\0\x04\xc0\0\x02\x01";

/// NXDOMAIN for a.test (RFC 1035, section 4.1.1).
const A_NONE: &[u8] = b"\x12\x34\x81\x83\0\x01\0\0\0\0\0\0\x01a\x04test\0\0\x01\0\x01";

/// One Accept, and its two turns.
const ASKED_ONCE: &str = "accept 1
start 1 on 0 over 0 at 0
arrive from 0 over 0
take 1
destroy
";

const CASES: [Case; 13] = [
    Case {
        shows: "the second of two is a hit",
        line: "--server 192.0.2.53 --room 1 a.test a.test",
        comings: &[Coming::Datagram {
            from: 5,
            server: 0,
            bytes: A_300,
        }],
        fails: &[],
        put_fails: &[],
        turns: 100,
        status: 0,
        put: ";; sent
;; a.test IN A
;; status 0 SUCCESS
;; id 4660 rcode 0 flags qr rd ra
;; ANSWER
a.test. 300 IN A 192.0.2.1
;; hit
;; a.test IN A
;; status 0 SUCCESS
;; id 4660 rcode 0 flags qr rd ra
;; ANSWER
a.test. 300 IN A 192.0.2.1
",
        journal: ASKED_ONCE,
    },
    Case {
        shows: "names that differ in case alone are one",
        line: "--server 192.0.2.53 --room 1 a.test A.TEST",
        comings: &[Coming::Datagram {
            from: 5,
            server: 0,
            bytes: A_300,
        }],
        fails: &[],
        put_fails: &[],
        turns: 100,
        status: 0,
        put: ";; sent
;; a.test IN A
;; status 0 SUCCESS
;; id 4660 rcode 0 flags qr rd ra
;; ANSWER
a.test. 300 IN A 192.0.2.1
;; hit
;; A.TEST IN A
;; status 0 SUCCESS
;; id 4660 rcode 0 flags qr rd ra
;; ANSWER
a.test. 300 IN A 192.0.2.1
",
        journal: ASKED_ONCE,
    },
    Case {
        shows: "with room for one the other makes room",
        line: "--server 192.0.2.53 --room 1 a.test b.test a.test",
        comings: &[
            Coming::Datagram {
                from: 5,
                server: 0,
                bytes: A_300,
            },
            Coming::Datagram {
                from: 10,
                server: 0,
                bytes: B_300,
            },
            Coming::Datagram {
                from: 15,
                server: 0,
                bytes: A_300,
            },
        ],
        fails: &[],
        put_fails: &[],
        turns: 100,
        status: 0,
        put: ";; sent
;; a.test IN A
;; status 0 SUCCESS
;; id 4660 rcode 0 flags qr rd ra
;; ANSWER
a.test. 300 IN A 192.0.2.1
;; sent
;; b.test IN A
;; status 0 SUCCESS
;; id 4660 rcode 0 flags qr rd ra
;; ANSWER
b.test. 300 IN A 192.0.2.1
;; sent
;; a.test IN A
;; status 0 SUCCESS
;; id 4660 rcode 0 flags qr rd ra
;; ANSWER
a.test. 300 IN A 192.0.2.1
",
        journal: "accept 1
start 1 on 0 over 0 at 0
arrive from 0 over 0
take 1
accept 2
start 2 on 0 over 0 at 5
arrive from 0 over 0
take 2
accept 3
start 3 on 0 over 0 at 10
arrive from 0 over 0
take 3
destroy
",
    },
    Case {
        shows: "an answer of ttl 0 isn't kept",
        line: "--server 192.0.2.53 --room 1 a.test a.test",
        comings: &[
            Coming::Datagram {
                from: 5,
                server: 0,
                bytes: A_0,
            },
            Coming::Datagram {
                from: 10,
                server: 0,
                bytes: A_0,
            },
        ],
        fails: &[],
        put_fails: &[],
        turns: 100,
        status: 0,
        put: ";; sent
;; a.test IN A
;; status 0 SUCCESS
;; id 4660 rcode 0 flags qr rd ra
;; ANSWER
a.test. 0 IN A 192.0.2.1
;; sent
;; a.test IN A
;; status 0 SUCCESS
;; id 4660 rcode 0 flags qr rd ra
;; ANSWER
a.test. 0 IN A 192.0.2.1
",
        journal: "accept 1
start 1 on 0 over 0 at 0
arrive from 0 over 0
take 1
accept 2
start 2 on 0 over 0 at 5
arrive from 0 over 0
take 2
destroy
",
    },
    Case {
        shows: "a name that isn't there isn't kept, and is a failure",
        line: "--server 192.0.2.53 --room 1 a.test a.test",
        comings: &[
            Coming::Datagram {
                from: 5,
                server: 0,
                bytes: A_NONE,
            },
            Coming::Datagram {
                from: 10,
                server: 0,
                bytes: A_300,
            },
        ],
        fails: &[],
        put_fails: &[],
        turns: 100,
        status: 1,
        put: ";; sent
;; a.test IN A
;; status 4 ENOTFOUND
;; id 4660 rcode 3 flags qr rd ra
;; sent
;; a.test IN A
;; status 0 SUCCESS
;; id 4660 rcode 0 flags qr rd ra
;; ANSWER
a.test. 300 IN A 192.0.2.1
",
        journal: "accept 1
start 1 on 0 over 0 at 0
arrive from 0 over 0
take 1
accept 2
start 2 on 0 over 0 at 5
arrive from 0 over 0
take 2
destroy
",
    },
    Case {
        shows: "a text that isn't a name is answered at once",
        line: "--server 192.0.2.53 --room 1 a..b",
        comings: &[],
        fails: &[],
        put_fails: &[],
        turns: 100,
        status: 1,
        put: ";; sent
;; a..b IN A
;; status 8 EBADNAME
",
        journal: "accept 1
take 1
destroy
",
    },
    // It is kept at 5, for 1,000 milliseconds.
    Case {
        shows: "an answer is given one millisecond before its end",
        line: "--server 192.0.2.53 --room 2 a.test b.test a.test",
        comings: &[
            Coming::Datagram {
                from: 5,
                server: 0,
                bytes: A_1,
            },
            Coming::Datagram {
                from: 1004,
                server: 0,
                bytes: B_300,
            },
        ],
        fails: &[],
        put_fails: &[],
        turns: 100,
        status: 0,
        put: ";; sent
;; a.test IN A
;; status 0 SUCCESS
;; id 4660 rcode 0 flags qr rd ra
;; ANSWER
a.test. 1 IN A 192.0.2.1
;; sent
;; b.test IN A
;; status 0 SUCCESS
;; id 4660 rcode 0 flags qr rd ra
;; ANSWER
b.test. 300 IN A 192.0.2.1
;; hit
;; a.test IN A
;; status 0 SUCCESS
;; id 4660 rcode 0 flags qr rd ra
;; ANSWER
a.test. 1 IN A 192.0.2.1
",
        journal: "accept 1
start 1 on 0 over 0 at 0
arrive from 0 over 0
take 1
accept 2
start 2 on 0 over 0 at 5
arrive from 0 over 0
take 2
destroy
",
    },
    Case {
        shows: "and not at its end",
        line: "--server 192.0.2.53 --room 2 a.test b.test a.test",
        comings: &[
            Coming::Datagram {
                from: 5,
                server: 0,
                bytes: A_1,
            },
            Coming::Datagram {
                from: 1005,
                server: 0,
                bytes: B_300,
            },
            Coming::Datagram {
                from: 1010,
                server: 0,
                bytes: A_300,
            },
        ],
        fails: &[],
        put_fails: &[],
        turns: 100,
        status: 0,
        put: ";; sent
;; a.test IN A
;; status 0 SUCCESS
;; id 4660 rcode 0 flags qr rd ra
;; ANSWER
a.test. 1 IN A 192.0.2.1
;; sent
;; b.test IN A
;; status 0 SUCCESS
;; id 4660 rcode 0 flags qr rd ra
;; ANSWER
b.test. 300 IN A 192.0.2.1
;; sent
;; a.test IN A
;; status 0 SUCCESS
;; id 4660 rcode 0 flags qr rd ra
;; ANSWER
a.test. 300 IN A 192.0.2.1
",
        journal: "accept 1
start 1 on 0 over 0 at 0
arrive from 0 over 0
take 1
accept 2
start 2 on 0 over 0 at 5
arrive from 0 over 0
take 2
accept 3
start 3 on 0 over 0 at 1005
arrive from 0 over 0
take 3
destroy
",
    },
    // The wait is call 7, from 0: before it stand a serve, the clock for the name, and a turn's clock, receive, word, send, and
    // the word for a further leg.
    Case {
        shows: "a failing wait is a fault",
        line: "--server 192.0.2.53 --room 1 a.test",
        comings: &[],
        fails: &[7],
        put_fails: &[],
        turns: 100,
        status: 6,
        put: "acache: wait fault\n",
        journal: "accept 1
start 1 on 0 over 0 at 0
destroy
take 1
",
    },
    // It is call 18: behind the first wait stand a turn's clock, its receives of the answer and of nothing, and its word; then
    // the clock for the second name, and a turn for it as the first.
    Case {
        shows: "and so is one for the second name, of which the first isn't shown then",
        line: "--server 192.0.2.53 --room 1 a.test b.test",
        comings: &[Coming::Datagram {
            from: 5,
            server: 0,
            bytes: A_300,
        }],
        fails: &[18],
        put_fails: &[],
        turns: 100,
        status: 6,
        put: "acache: wait fault\n",
        journal: "accept 1
start 1 on 0 over 0 at 0
arrive from 0 over 0
take 1
accept 2
start 2 on 0 over 0 at 5
destroy
take 2
",
    },
    Case {
        shows: "words that ask nothing are refused",
        line: "--room 1 --server 192.0.2.53 a.test",
        comings: &[],
        fails: &[],
        put_fails: &[],
        turns: 100,
        status: 2,
        put: "acache: usage\n",
        journal: "",
    },
    Case {
        shows: "without turns it has stalled",
        line: "--server 192.0.2.53 --room 1 a.test",
        comings: &[],
        fails: &[],
        put_fails: &[],
        turns: 0,
        status: 7,
        put: "acache: stalled\n",
        journal: "accept 1
destroy
take 1
",
    },
    Case {
        shows: "an output that fails",
        line: "--server 192.0.2.53 --room 1 a.test",
        comings: &[Coming::Datagram {
            from: 5,
            server: 0,
            bytes: A_300,
        }],
        fails: &[],
        put_fails: &[0],
        turns: 100,
        status: 4,
        put: "",
        journal: ASKED_ONCE,
    },
];

/// What a run is lent.
#[derive(Drop)]
struct Outside {
    world: ScriptWorld,
    sink: MemSink,
}

/// The outside of a run.
fn outside_of(alloc: Global, case: &Case) -> Result<Outside, Fail> {
    let words = Vec::from_elem(alloc, 0x1234u16, 64)?;
    let fails = case.fails.to_vec(alloc)?;
    let put_fails = case.put_fails.to_vec(alloc)?;
    Ok(Outside {
        world: ScriptWorld::make(words, items_of(alloc, case.comings)?, fails),
        sink: MemSink::make(put_fails),
    })
}

/// How a run ends. No other function calls `run`: its clauses are long.
fn ended(alloc: Global, words: &[&str], turns: u64, outside: &mut Outside) -> Ended {
    let Outside { world, sink } = outside;
    run(alloc, words, world, sink, turns)
}

/// Whether a run leaves what it has to.
fn is_left(alloc: Global, case: &Case, ended: &Ended, outside: &Outside) -> Result<bool, Fail> {
    let journal = journal_told(alloc, ended.journal.entries())?;
    Ok(
        ended.status == case.status
            && outside.sink.bytes() == case.put.as_bytes()
            && journal.as_str() == case.journal,
    )
}

/// The same of a case.
fn leaves(alloc: Global, case: &Case) -> Result<bool, Fail> {
    let words = words_of(alloc, case.line)?;
    let mut outside = outside_of(alloc, case)?;
    let end = ended(alloc, words.as_slice(), case.turns, &mut outside);
    is_left(alloc, case, &end, &outside)
}

/// What the first of these runs shows that doesn't leave what it has to; nothing where each does.
fn first_wrong(alloc: Global) -> Result<&'static str, Fail> {
    for case in CASES.iter() {
        if !leaves(alloc, case)? {
            return Ok(case.shows);
        }
    }
    Ok("")
}

#[test]
fn runs_leave_what_they_have_to(rt: HostRuntime) -> Result<(), Fail> {
    assert_eq!(rt; first_wrong(rt.alloc())?, "");
    Ok(())
}
