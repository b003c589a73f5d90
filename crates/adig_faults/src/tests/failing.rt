//! What the failure of a send, a connect, a write, a receive and a wait leaves: the whole journal, and the network's calls.

use super::outside::{Outside, outside_of};
use super::{LINE, LINE_TRIED_ONCE, PAGE, REFUSED, SILENT, WAIT_FAULT, is_put, played};
use scenario::{are_told, is_called_once};
use std::alloc::Global;
use std::test::Fail;

/// The words of a run, and the number of the network's call that fails, from 0; and what it has to leave: its exit status, what
/// it put, and the lines of its journal and of its network's calls.
#[derive(Clone, Copy)]
struct Case {
    shows: &'static str,
    line: &'static str,
    fails: u64,
    status: u8,
    put: &'static str,
    journal: &'static str,
    calls: &'static str,
}

/// The attempt is begun again in the same turn, and waits twice as long.
const SEND: Case = Case {
    shows: "a failed send is tried again",
    line: LINE,
    fails: 4,
    status: 0,
    put: PAGE,
    journal: "accept 1
start 1 on 0 over 0 at 0
fault of 0 over 0 at 0
start 1 on 0 over 0 at 0
arrive from 0 over 0
start 1 on 0 over 1 at 1
arrive from 0 over 1
take 1
destroy
",
    calls: "serve 0 of 3221226037 at 53
send to 0
send to 0
wait to 4000
connect 0 over 1
write to 1
wait to 4001
wait to 4001
close 1
",
};

/// The attempt over UDP has failed where the truncated reply comes, so this is a stray, and it is asked over UDP again.
const RECEIVE: Case = Case {
    shows: "a failed receive fails the attempt over UDP",
    line: LINE,
    fails: 8,
    status: 1,
    put: SILENT,
    journal: "accept 1
start 1 on 0 over 0 at 0
fault of 0 over 0 at 1
arrive from 0 over 0
start 1 on 0 over 0 at 1
expire 1 at 4001
start 1 on 0 over 0 at 4001
expire 1 at 12001
take 1
destroy
",
    calls: "serve 0 of 3221226037 at 53
send to 0
wait to 2000
send to 0
wait to 4001
wait to 4001
wait to 4001
send to 0
wait to 12001
",
};

/// A further link is opened in the same turn, and its number is a new one. The pieces come over the first, which isn't held.
const CONNECT: Case = Case {
    shows: "behind a failed connect a further link is opened",
    line: LINE,
    fails: 11,
    status: 1,
    put: SILENT,
    journal: "accept 1
start 1 on 0 over 0 at 0
arrive from 0 over 0
start 1 on 0 over 1 at 1
fault of 0 over 1 at 1
start 1 on 0 over 2 at 1
expire 1 at 4001
start 1 on 0 over 3 at 4001
expire 1 at 12001
take 1
destroy
",
    calls: "serve 0 of 3221226037 at 53
send to 0
wait to 2000
connect 0 over 1
connect 0 over 2
write to 2
wait to 4001
wait to 4001
wait to 4001
connect 0 over 3
write to 3
close 2
wait to 12001
close 3
",
};

/// The link is closed, and a further one is opened in the next turn, without a wait between.
const WRITE: Case = Case {
    shows: "behind a failed write a further link is opened",
    line: LINE,
    fails: 13,
    status: 1,
    put: SILENT,
    journal: "accept 1
start 1 on 0 over 0 at 0
arrive from 0 over 0
start 1 on 0 over 1 at 1
fault of 0 over 1 at 1
start 1 on 0 over 2 at 1
expire 1 at 4001
start 1 on 0 over 3 at 4001
expire 1 at 12001
take 1
destroy
",
    calls: "serve 0 of 3221226037 at 53
send to 0
wait to 2000
connect 0 over 1
write to 1
close 1
connect 0 over 2
write to 2
wait to 4001
connect 0 over 3
write to 3
close 2
wait to 12001
close 3
",
};

/// The request is destroyed, and its callback is called; the failed wait is the network's last call, and the link isn't closed.
const WAIT: Case = Case {
    shows: "a failed wait ends the run, with a link held",
    line: LINE,
    fails: 19,
    status: 6,
    put: WAIT_FAULT,
    journal: "accept 1
start 1 on 0 over 0 at 0
arrive from 0 over 0
start 1 on 0 over 1 at 1
destroy
take 1
",
    calls: "serve 0 of 3221226037 at 53
send to 0
wait to 2000
connect 0 over 1
write to 1
wait to 2001
wait to 2001
",
};

/// With one attempt the request ends with its fault.
const ONLY_SEND: Case = Case {
    shows: "the only send fails",
    line: LINE_TRIED_ONCE,
    fails: 4,
    status: 1,
    put: REFUSED,
    journal: "accept 1
start 1 on 0 over 0 at 0
fault of 0 over 0 at 0
take 1
destroy
",
    calls: "serve 0 of 3221226037 at 53
send to 0
",
};

const ONLY_RECEIVE: Case = Case {
    shows: "the receive of the only reply fails, which then is a stray",
    line: LINE_TRIED_ONCE,
    fails: 8,
    status: 1,
    put: REFUSED,
    journal: "accept 1
start 1 on 0 over 0 at 0
fault of 0 over 0 at 1
arrive from 0 over 0
take 1
destroy
",
    calls: "serve 0 of 3221226037 at 53
send to 0
wait to 2000
",
};

const ONLY_CONNECT: Case = Case {
    shows: "the only connect fails",
    line: LINE_TRIED_ONCE,
    fails: 11,
    status: 1,
    put: REFUSED,
    journal: "accept 1
start 1 on 0 over 0 at 0
arrive from 0 over 0
start 1 on 0 over 1 at 1
fault of 0 over 1 at 1
take 1
destroy
",
    calls: "serve 0 of 3221226037 at 53
send to 0
wait to 2000
connect 0 over 1
",
};

const ONLY_WRITE: Case = Case {
    shows: "the only write fails",
    line: LINE_TRIED_ONCE,
    fails: 13,
    status: 1,
    put: REFUSED,
    journal: "accept 1
start 1 on 0 over 0 at 0
arrive from 0 over 0
start 1 on 0 over 1 at 1
fault of 0 over 1 at 1
take 1
destroy
",
    calls: "serve 0 of 3221226037 at 53
send to 0
wait to 2000
connect 0 over 1
write to 1
close 1
",
};

const CASES: &[Case] = &[
    SEND,
    RECEIVE,
    CONNECT,
    WRITE,
    WAIT,
    ONLY_SEND,
    ONLY_RECEIVE,
    ONLY_CONNECT,
    ONLY_WRITE,
];

/// What the first of these runs shows that leaves something else; nothing where none does.
fn first_wrong<'a>(alloc: Global, cases: &'a [Case]) -> Result<&'a str, Fail> {
    for case in cases {
        if !leaves(alloc, case)? {
            return Ok(case.shows);
        }
    }
    Ok("")
}

/// Whether a run leaves what it has to.
fn leaves(alloc: Global, case: &Case) -> Result<bool, Fail> {
    leaves_in(alloc, case, &mut outside_of(alloc, &[case.fails])?)
}

/// The same where it is lent this.
fn leaves_in(alloc: Global, case: &Case, outside: &mut Outside) -> Result<bool, Fail> {
    let ended = played(alloc, case.line, outside)?;
    let entries = ended.journal.entries();
    let is_so = ended.status == case.status
        && is_put(outside, case.put)
        && is_called_once(entries, &ended.calls);
    let calls = outside.world.log().calls();
    Ok(is_so && are_told(alloc, entries, case.journal, calls, case.calls)?)
}

#[test]
fn failures_leave_this(rt: HostRuntime) -> Result<(), Fail> {
    assert_eq!(rt; first_wrong(rt.alloc(), CASES)?, "");
    Ok(())
}
