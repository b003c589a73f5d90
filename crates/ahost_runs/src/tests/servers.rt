//! Servers that are set behind the first turn.

use super::{Case, RUN, Scenario, Wanted, first_wrong};
use std::test::Fail;

/// Two servers are silent, and two others are set behind the first turn, of which the first is one of the old ones: it
/// keeps its key, and the other gets the next.
pub(super) const SERVERS_ARE_SET_BEHIND_THE_FIRST_TURN: Case = Case {
    shows: "servers are set behind the first turn",
    run: Scenario {
        line: "--server 192.0.2.1,192.0.2.2 --tries 2 --family 4 --then 192.0.2.2,192.0.2.3 x.test.",
        ..RUN
    },
    wanted: Wanted {
        status: 1,
        put: "x.test. 12 ETIMEOUT\n",
        journal: "accept 1
start 1 on 0 over 0 at 0
servers 1 2
start 1 on 1 over 0 at 0
expire 1 at 2000
start 1 on 2 over 0 at 2000
expire 1 at 4000
start 1 on 1 over 0 at 4000
expire 1 at 8000
start 1 on 2 over 0 at 8000
expire 1 at 12000
take 1
destroy
",
        network: "serve 0 of 3221225985 at 53
serve 1 of 3221225986 at 53
send to 0
send to 1
wait to 2000
serve 2 of 3221225987 at 53
send to 2
wait to 4000
send to 1
wait to 8000
send to 2
wait to 12000
",
        answers: "1 status 12\n",
    },
};

/// Where a callback has destroyed the channel no servers are set, and without a turn neither.
const A_DESTROYED_CHANNEL_KEEPS_ITS_SERVERS: Case = Case {
    shows: "a destroyed channel keeps its servers",
    run: Scenario {
        line: "--server 192.0.2.1 --family 4 --quit --then 192.0.2.2 192.0.2.9",
        ..RUN
    },
    wanted: Wanted {
        status: 0,
        put: "192.0.2.9 0 SUCCESS\n  192.0.2.9\n",
        journal: "accept 1\ntake 1\nby 1 destroy\n",
        network: "serve 0 of 3221225985 at 53\n",
        answers: "1 status 0\n",
    },
};

/// Runs with `--then`.
const SERVERS: &[Case] = &[
    SERVERS_ARE_SET_BEHIND_THE_FIRST_TURN,
    A_DESTROYED_CHANNEL_KEEPS_ITS_SERVERS,
];

#[test]
fn servers_are_set_once(rt: HostRuntime) -> Result<(), Fail> {
    assert_eq!(rt; first_wrong(rt.alloc(), SERVERS)?, "");
    Ok(())
}
