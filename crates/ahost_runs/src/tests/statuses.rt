//! Each exit status, by its number, with the text that is put; 5 is want of memory, which these runs don't meet.

use super::{Case, RUN, Scenario, Wanted, first_wrong, leaves};
use std::alloc::Global;
use std::test::Fail;

/// A run whose one request is silent.
pub const SILENT: &str = "--server 192.0.2.53 --family 4 --no-edns x.test.";

/// A run that completes before its first turn.
pub const AT_ONCE: &str = "--server 192.0.2.53 192.0.2.1";

const GIVEN: &str = "serve 0 of 3221226037 at 53\n";

/// What a run leaves that ends before it has a channel: nothing is called, and nothing is in the journal.
pub const USAGE: Wanted<'static> = Wanted {
    status: 2,
    put: "ahost: usage\n",
    journal: "",
    network: "",
    answers: "",
};

const FILE_FAULT: Wanted<'static> = Wanted {
    status: 3,
    put: "ahost: file fault\n",
    ..USAGE
};

/// What the run leaves that completes at once.
pub const FOUND: Wanted<'static> = Wanted {
    status: 0,
    put: "192.0.2.1 0 SUCCESS\n  192.0.2.1\n",
    journal: "accept 1\ntake 1\ndestroy\n",
    network: GIVEN,
    answers: "1 status 0\n",
};

/// Words that ask nothing that is served: no words, no name, a load of more names than bodies, workers, values that can't be
/// read, an option of the other tool, and more names than bodies.
const REFUSED: &[&str] = &[
    "",
    "--follow",
    "--load 9",
    "--workers 1 x.test.",
    "--family 5 x.test.",
    "--type MX x.test.",
    "--then x x.test.",
    "--first=1 x.test.",
    "a.test. b.test. c.test. d.test. e.test. f.test. g.test. h.test. i.test.",
];

/// Whether the words are refused.
fn is_refused(alloc: Global, line: &str) -> Result<bool, Fail> {
    let scenario = Scenario { line, ..RUN };
    leaves(alloc, &scenario, &USAGE)
}

/// Whether all of these lines are refused.
fn are_refused(alloc: Global, lines: &[&str]) -> Result<bool, Fail> {
    for line in lines {
        if !is_refused(alloc, line)? {
            return Ok(false);
        }
    }
    Ok(true)
}

#[test]
fn words_that_ask_nothing_are_refused(rt: HostRuntime) -> Result<(), Fail> {
    assert!(rt; are_refused(rt.alloc(), REFUSED)?);
    Ok(())
}

/// Whether a run with a resolv.conf of so many bytes, which are a comment, leaves this.
fn leaves_with_resolv(alloc: Global, len: usize, wanted: &Wanted<'_>) -> Result<bool, Fail> {
    let bytes = Vec::from_elem(alloc, b'#', len)?;
    let scenario = Scenario {
        line: AT_ONCE,
        resolv: Some(bytes.as_slice()),
        ..RUN
    };
    leaves(alloc, &scenario, wanted)
}

/// The same with a hosts file.
fn leaves_with_hosts(alloc: Global, len: usize, wanted: &Wanted<'_>) -> Result<bool, Fail> {
    let bytes = Vec::from_elem(alloc, b'#', len)?;
    let scenario = Scenario {
        line: AT_ONCE,
        hosts: Some(bytes.as_slice()),
        ..RUN
    };
    leaves(alloc, &scenario, wanted)
}

/// A resolv.conf of 65,537 bytes is too large, and one of 65,536 isn't.
#[test]
fn a_large_resolv_conf_is_a_fault(rt: HostRuntime) -> Result<(), Fail> {
    assert!(rt; leaves_with_resolv(rt.alloc(), 65_537, &FILE_FAULT)?);
    assert!(rt; leaves_with_resolv(rt.alloc(), 65_536, &FOUND)?);
    Ok(())
}

/// A hosts file of 4,194,305 bytes is too large, and one of 4,194,304 isn't.
#[test]
fn a_large_hosts_file_is_a_fault(rt: HostRuntime) -> Result<(), Fail> {
    assert!(rt; leaves_with_hosts(rt.alloc(), 4_194_305, &FILE_FAULT)?);
    assert!(rt; leaves_with_hosts(rt.alloc(), 4_194_304, &FOUND)?);
    Ok(())
}

/// The first read fails, or the second.
const A_FIRST_READ_FAILS: Case = Case {
    shows: "a failing first read is a fault",
    run: Scenario {
        line: AT_ONCE,
        read_fails: &[0],
        ..RUN
    },
    wanted: FILE_FAULT,
};

const A_SECOND_READ_FAILS: Case = Case {
    shows: "a failing second read is a fault",
    run: Scenario {
        line: AT_ONCE,
        read_fails: &[1],
        ..RUN
    },
    wanted: FILE_FAULT,
};

/// The put fails behind a whole run, and behind refused words. A put that fails in memory adds nothing.
const A_PUT_FAILS: Case = Case {
    shows: "a failing put is a fault",
    run: Scenario {
        line: AT_ONCE,
        put_fails: &[0],
        ..RUN
    },
    wanted: Wanted {
        status: 4,
        put: "",
        ..FOUND
    },
};

const A_PUT_FAILS_EARLY: Case = Case {
    shows: "a failing put behind refused words is a fault",
    run: Scenario {
        line: "",
        put_fails: &[0],
        ..RUN
    },
    wanted: Wanted {
        status: 4,
        put: "",
        ..USAGE
    },
};

/// Runs on which a call of the files or of the output fails.
const FAILING_CALLS: &[Case] = &[
    A_FIRST_READ_FAILS,
    A_SECOND_READ_FAILS,
    A_PUT_FAILS,
    A_PUT_FAILS_EARLY,
];

#[test]
fn a_failing_call_is_a_fault(rt: HostRuntime) -> Result<(), Fail> {
    assert_eq!(rt; first_wrong(rt.alloc(), FAILING_CALLS)?, "");
    Ok(())
}

/// The first wait fails. It is call 6, from 0: before it stand a serve, the clock, a receive, a word, a send, and the word for
/// a further leg. The request is destroyed, and its callback called.
const A_FAILING_WAIT_IS_A_FAULT: Case = Case {
    shows: "a failing wait is a fault",
    run: Scenario {
        line: SILENT,
        fails: &[6],
        ..RUN
    },
    wanted: Wanted {
        status: 6,
        put: "ahost: wait fault\n",
        journal: "accept 1\nstart 1 on 0 over 0 at 0\ndestroy\ntake 1\n",
        network: "serve 0 of 3221226037 at 53\nsend to 0\nwait to 2000\n",
        answers: "1 status 16\n",
    },
};

/// Without turns nothing is sent, and the request is destroyed; its callback is called all the same.
const NO_TURNS_IS_STALLED: Case = Case {
    shows: "no turns is stalled",
    run: Scenario {
        line: SILENT,
        turns: 0,
        ..RUN
    },
    wanted: Wanted {
        status: 7,
        put: "ahost: stalled\n",
        journal: "accept 1\ndestroy\ntake 1\n",
        network: GIVEN,
        answers: "1 status 16\n",
    },
};

/// What completes at once needs no turn.
const NO_TURNS_ARE_ENOUGH_FOR_AN_ADDRESS: Case = Case {
    shows: "no turns are enough for an address",
    run: Scenario {
        line: AT_ONCE,
        turns: 0,
        ..RUN
    },
    wanted: FOUND,
};

/// Silence is waited for, three times by default, each time twice as long, and is no success.
const SILENCE_IS_A_FAILURE: Case = Case {
    shows: "silence is a failure",
    run: Scenario {
        line: SILENT,
        ..RUN
    },
    wanted: Wanted {
        status: 1,
        put: "x.test. 12 ETIMEOUT\n",
        journal: "accept 1
start 1 on 0 over 0 at 0
expire 1 at 2000
start 1 on 0 over 0 at 2000
expire 1 at 6000
start 1 on 0 over 0 at 6000
expire 1 at 14000
take 1
destroy
",
        network: "serve 0 of 3221226037 at 53
send to 0
wait to 2000
send to 0
wait to 6000
send to 0
wait to 14000
",
        answers: "1 status 12\n",
    },
};

/// Runs that have a channel.
const ACCEPTED: &[Case] = &[
    A_FAILING_WAIT_IS_A_FAULT,
    NO_TURNS_IS_STALLED,
    NO_TURNS_ARE_ENOUGH_FOR_AN_ADDRESS,
    SILENCE_IS_A_FAILURE,
];

#[test]
fn a_run_has_its_status(rt: HostRuntime) -> Result<(), Fail> {
    assert_eq!(rt; first_wrong(rt.alloc(), ACCEPTED)?, "");
    Ok(())
}
