//! Each exit status, by its number, with the text that is put; 5 is want of memory, which these runs don't meet.

use super::replies::{ANSWERED_RUN, PRINTED};
use super::{Case, RUN, Scenario, Sent, Wanted, first_wrong, leaves};
use std::alloc::Global;
use std::test::Fail;

/// A run that ends before it has a channel, for a file: nothing is called, and nothing is in the journal.
const FILE_FAULT: Wanted<'static> = Wanted {
    status: 3,
    put: "adig: file fault\n",
    journal: "",
    calls: "",
    called: 0,
    sent: Sent::All(b""),
};

/// No words: nothing is called, and nothing is in the journal.
const NO_WORDS: Case = Case {
    shows: "no words are refused",
    run: Scenario { line: "", ..RUN },
    wanted: Wanted {
        status: 2,
        put: "adig: usage\n",
        ..FILE_FAULT
    },
};

/// The read fails.
const FAILING_READ: Case = Case {
    shows: "a failing read is a fault",
    run: Scenario {
        read_fails: &[0],
        ..RUN
    },
    wanted: FILE_FAULT,
};

/// What a put that fails in memory leaves: it adds nothing.
const UNPUT: Wanted<'static> = Wanted {
    status: 4,
    put: "",
    ..FILE_FAULT
};

/// The put fails: behind a whole run, behind a file that can't be read, and behind refused words.
const FAILING_PUT: Case = Case {
    shows: "a failing put is a fault",
    run: Scenario {
        put_fails: &[0],
        ..ANSWERED_RUN
    },
    wanted: Wanted {
        status: 4,
        put: "",
        ..PRINTED
    },
};

const FAILING_READ_AND_PUT: Case = Case {
    shows: "a failing put behind a failing read",
    run: Scenario {
        read_fails: &[0],
        put_fails: &[0],
        ..RUN
    },
    wanted: UNPUT,
};

const REFUSED_AND_UNPUT: Case = Case {
    shows: "a failing put behind refused words",
    run: Scenario {
        line: "",
        read_fails: &[0],
        put_fails: &[0],
        ..RUN
    },
    wanted: UNPUT,
};

/// Runs without a channel, and one whose page isn't put.
const EARLY: &[Case] = &[
    NO_WORDS,
    FAILING_READ,
    FAILING_PUT,
    FAILING_READ_AND_PUT,
    REFUSED_AND_UNPUT,
];

#[test]
fn a_failing_call_is_a_fault(rt: HostRuntime) -> Result<(), Fail> {
    assert_eq!(rt; first_wrong(rt.alloc(), EARLY)?, "");
    Ok(())
}

/// The first wait fails. It is call 6, from 0: before it stand a serve, the clock, a receive, a word, a send, and the word for
/// a further leg. The request is destroyed, and its callback called.
pub const FAILING_WAIT: Case = Case {
    shows: "a failing wait is a fault",
    run: Scenario {
        fails: &[6],
        ..ANSWERED_RUN
    },
    wanted: Wanted {
        status: 6,
        put: "adig: wait fault\n",
        journal: "accept 1\nstart 1 on 0 over 0 at 0\ndestroy\ntake 1\n",
        ..PRINTED
    },
};

/// What a run without turns leaves: nothing is sent, and the request is destroyed; its callback is called all the same.
const STALLED: Wanted<'static> = Wanted {
    status: 7,
    put: "adig: stalled\n",
    journal: "accept 1\ndestroy\ntake 1\n",
    calls: "serve 0 of 3221226037 at 53\n",
    called: 1,
    sent: Sent::All(b""),
};

pub const NO_TURNS: Case = Case {
    shows: "no turns is stalled",
    run: Scenario { turns: 0, ..RUN },
    wanted: STALLED,
};

/// Behind `--` a word is a name, whatever it begins with. Without a resolv.conf the server is 127.0.0.1 (resolv.conf(5)).
const DASH: Case = Case {
    shows: "a name may begin with a dash",
    run: Scenario {
        line: "-- -x",
        turns: 0,
        ..RUN
    },
    wanted: Wanted {
        calls: "serve 0 of 2130706433 at 53\n",
        ..STALLED
    },
};

/// What a name under `onion` leaves (RFC 7686, section 2): it completes at its Accept, also without turns.
pub const NOT_FOUND: Wanted<'static> = Wanted {
    status: 1,
    put: ";; x.onion IN A\n;; status 4 ENOTFOUND\n",
    journal: "accept 1\ntake 1\ndestroy\n",
    ..STALLED
};

pub const ONION: Case = Case {
    shows: "onion is not found without turns",
    run: Scenario {
        line: "--server 192.0.2.53 x.onion",
        turns: 0,
        ..RUN
    },
    wanted: NOT_FOUND,
};

/// What a run in silence leaves: three attempts, of which each waits twice as long as the one before.
const SILENT: Wanted<'static> = Wanted {
    status: 1,
    put: ";; example.com IN A\n;; status 12 ETIMEOUT\n",
    journal: "accept 1
start 1 on 0 over 0 at 0
expire 1 at 2000
start 1 on 0 over 0 at 2000
expire 1 at 6000
start 1 on 0 over 0 at 6000
expire 1 at 14000
take 1
destroy
",
    calls: "serve 0 of 3221226037 at 53\nwait to 2000\nwait to 6000\nwait to 14000\n",
    called: 1,
    sent: Sent::Last(3 * 29, b""),
};

/// A label of 64 bytes is no name, and one of 63 is asked: three queries of 12 + 65 + 4 + 11 bytes are sent (RFC 1035, section
/// 2.3.4).
const LABEL_OF_64: Case = Case {
    shows: "a label of 64 bytes is no name",
    run: Scenario {
        line: "aaaaaaaaaaaaaaaaaaaaaaaaaaaaaaaaaaaaaaaaaaaaaaaaaaaaaaaaaaaaaaaa",
        ..RUN
    },
    wanted: Wanted {
        put: ";; aaaaaaaaaaaaaaaaaaaaaaaaaaaaaaaaaaaaaaaaaaaaaaaaaaaaaaaaaaaaaaaa IN A\n;; status 8 EBADNAME\n",
        calls: "serve 0 of 2130706433 at 53\n",
        ..NOT_FOUND
    },
};

const LABEL_OF_63: Case = Case {
    shows: "a label of 63 bytes is asked",
    run: Scenario {
        line: "aaaaaaaaaaaaaaaaaaaaaaaaaaaaaaaaaaaaaaaaaaaaaaaaaaaaaaaaaaaaaaa",
        ..RUN
    },
    wanted: Wanted {
        put: ";; aaaaaaaaaaaaaaaaaaaaaaaaaaaaaaaaaaaaaaaaaaaaaaaaaaaaaaaaaaaaaaa IN A\n;; status 12 ETIMEOUT\n",
        calls: "serve 0 of 2130706433 at 53\nwait to 2000\nwait to 6000\nwait to 14000\n",
        sent: Sent::Last(3 * (12 + 65 + 4 + 11), b""),
        ..SILENT
    },
};

/// Runs that have a channel, and are no success.
const ACCEPTED: &[Case] = &[
    FAILING_WAIT,
    NO_TURNS,
    DASH,
    ONION,
    LABEL_OF_64,
    LABEL_OF_63,
];

#[test]
fn a_run_has_its_status(rt: HostRuntime) -> Result<(), Fail> {
    assert_eq!(rt; first_wrong(rt.alloc(), ACCEPTED)?, "");
    Ok(())
}

/// Whether a run in silence with a resolv.conf of so many bytes, which are a comment, leaves this.
fn leaves_with(alloc: Global, len: usize, wanted: &Wanted<'_>) -> Result<bool, Fail> {
    let bytes = Vec::from_elem(alloc, b'#', len)?;
    let scenario = Scenario {
        resolv: Some(bytes.as_slice()),
        ..RUN
    };
    leaves(alloc, &scenario, wanted)
}

/// A resolv.conf of 65,537 bytes is too large, and one of 65,536 isn't.
#[test]
fn a_large_file_is_a_fault(rt: HostRuntime) -> Result<(), Fail> {
    assert!(rt; leaves_with(rt.alloc(), 65_537, &FILE_FAULT)?);
    assert!(rt; leaves_with(rt.alloc(), 65_536, &SILENT)?);
    Ok(())
}
