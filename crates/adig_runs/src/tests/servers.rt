//! Runs over servers that answer nothing, or nothing that counts.

use super::replies::{PRINTED, QUERY};
use super::{Case, REPLY, RUN, Scenario, Sent, Wanted, first_wrong};
use scenario::Coming;
use std::test::Fail;

/// A server that can't read the query, and one that failed: response codes 1 and 2, without an OPT record.
const FORMERR: &[u8] = b"\x12\x34\x81\x81\0\x01\0\0\0\0\0\0\x07example\x03com\0\0\x01\0\x01";

const SERVFAIL: &[u8] = b"\x12\x34\x81\x82\0\x01\0\0\0\0\0\0\x07example\x03com\0\0\x01\0\x01";

/// Two servers are silent: each of four attempts waits for 2 seconds, and those of the second round for twice that.
const SILENCE: Case = Case {
    shows: "silence goes round the servers",
    run: Scenario {
        line: "--server 192.0.2.53,192.0.2.54 --tries 2 example.com",
        ..RUN
    },
    wanted: Wanted {
        status: 1,
        put: ";; example.com IN A\n;; status 12 ETIMEOUT\n",
        journal: "accept 1
start 1 on 0 over 0 at 0
expire 1 at 2000
start 1 on 1 over 0 at 2000
expire 1 at 4000
start 1 on 0 over 0 at 4000
expire 1 at 8000
start 1 on 1 over 0 at 8000
expire 1 at 12000
take 1
destroy
",
        calls: "serve 0 of 3221226037 at 53
serve 1 of 3221226038 at 53
wait to 2000
wait to 4000
wait to 8000
wait to 12000
",
        called: 1,
        sent: Sent::Any,
    },
};

/// A right reply from the server that wasn't asked is a stray. The run may make three turns.
const ANOTHER_SERVER: Case = Case {
    shows: "another server answers nothing",
    run: Scenario {
        line: "--server 192.0.2.53,192.0.2.54 --no-edns example.com",
        comings: &[Coming::Datagram {
            from: 5,
            server: 1,
            bytes: REPLY,
        }],
        turns: 3,
        ..RUN
    },
    wanted: Wanted {
        status: 7,
        put: "adig: stalled\n",
        journal: "accept 1
start 1 on 0 over 0 at 0
arrive from 1 over 0
expire 1 at 2000
start 1 on 1 over 0 at 2000
destroy
take 1
",
        calls: "serve 0 of 3221226037 at 53
serve 1 of 3221226038 at 53
wait to 2000
wait to 2000
wait to 4000
",
        called: 1,
        sent: Sent::Any,
    },
};

/// A server that refuses the OPT record is asked again without one, and no attempt is spent.
const WITHOUT_OPT: Case = Case {
    shows: "a server is asked again without OPT",
    run: Scenario {
        line: "--server 192.0.2.53 --tries 1 example.com",
        comings: &[
            Coming::Datagram {
                from: 3,
                server: 0,
                bytes: FORMERR,
            },
            Coming::Datagram {
                from: 4,
                server: 0,
                bytes: REPLY,
            },
        ],
        ..RUN
    },
    wanted: Wanted {
        journal: "accept 1
start 1 on 0 over 0 at 0
arrive from 0 over 0
start 1 on 0 over 0 at 3
arrive from 0 over 0
take 1
destroy
",
        calls: "serve 0 of 3221226037 at 53\nwait to 2000\nwait to 2003\n",
        sent: Sent::Last(40 + 29, QUERY),
        ..PRINTED
    },
};

/// A server that failed is left for the other one in the same turn.
const NEXT_SERVER: Case = Case {
    shows: "the next server is asked at once",
    run: Scenario {
        line: "--server 192.0.2.53,192.0.2.54 --no-edns example.com",
        comings: &[
            Coming::Datagram {
                from: 1,
                server: 0,
                bytes: SERVFAIL,
            },
            Coming::Datagram {
                from: 9,
                server: 1,
                bytes: REPLY,
            },
        ],
        ..RUN
    },
    wanted: Wanted {
        journal: "accept 1
start 1 on 0 over 0 at 0
arrive from 0 over 0
start 1 on 1 over 0 at 1
arrive from 1 over 0
take 1
destroy
",
        calls: "serve 0 of 3221226037 at 53\nserve 1 of 3221226038 at 53\nwait to 2000\nwait to 2001\n",
        sent: Sent::Any,
        ..PRINTED
    },
};

/// Each send to the only server fails: its three attempts are spent in one turn, without a wait. The calls of the network
/// are, by number: 0 tells the server, 1 reads the clock, 2 receives, and then a word is drawn before each send.
const FAILING_SENDS: Case = Case {
    shows: "sends fail in one turn",
    run: Scenario {
        fails: &[4, 6, 8],
        ..RUN
    },
    wanted: Wanted {
        status: 1,
        put: ";; example.com IN A\n;; status 11 ECONNREFUSED\n",
        journal: "accept 1
start 1 on 0 over 0 at 0
fault of 0 over 0 at 0
start 1 on 0 over 0 at 0
fault of 0 over 0 at 0
start 1 on 0 over 0 at 0
fault of 0 over 0 at 0
take 1
destroy
",
        calls: "serve 0 of 3221226037 at 53\n",
        called: 1,
        sent: Sent::Any,
    },
};

/// Servers that answer nothing, or nothing that counts.
const SERVERS: &[Case] = &[
    SILENCE,
    ANOTHER_SERVER,
    WITHOUT_OPT,
    NEXT_SERVER,
    FAILING_SENDS,
];

#[test]
fn servers_are_asked_in_turn(rt: HostRuntime) -> Result<(), Fail> {
    assert_eq!(rt; first_wrong(rt.alloc(), SERVERS)?, "");
    Ok(())
}
