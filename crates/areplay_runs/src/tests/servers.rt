//! Spoiled runs: servers that are set, and which keys they have. The positions are those of theorems in the crate
//! channel_examples, and the statuses are by the same definitions.

use super::spoiling::{Spoiling, first_other};
use std::test::Fail;

/// The servers 192.0.2.1 and 192.0.2.2, with two tries of each.
const TWICE: &str = "journal 1
option 2000 2 1 0 00000010 0 0 1232
server 192.0.2.1 53
server 192.0.2.2 53
hosts -
";

/// 192.0.2.2 stays, 192.0.2.1 leaves, and 192.0.2.3 comes.
const MOVED: Spoiling<'static> = Spoiling {
    head: TWICE,
    entries: &[
        "0 0 accept 1 q 782e746573742e 1 1 ( 0 )",
        "0 0 start 1 0 0 0 7 - 0",
        "0 0 servers 1 192.0.2.2 53 2 192.0.2.3 53",
        "0 0 start 1 0 1 0 8 - 0",
        "0 0 expire 1 0 2000",
        "0 0 start 1 0 2 0 9 - 2000",
        "0 0 expire 1 0 4000",
        "0 0 start 1 0 1 0 10 - 4000",
        "0 0 expire 1 0 8000",
        "0 0 start 1 0 2 0 11 - 8000",
        "0 0 expire 1 0 12000",
        "0 0 take 1",
    ],
    page: "lawful 12 entries 1 accepted\n1 12 ETIMEOUT\n",
    spoiled: &[
        (2, "0 0 servers 1 192.0.2.2 53 1 192.0.2.3 53"),
        (2, "0 0 servers 1 192.0.2.2 53 3 192.0.2.3 53"),
        (2, "0 0 servers 2 192.0.2.2 53 3 192.0.2.3 53"),
        (2, "0 0 servers"),
        (
            2,
            "0 0 servers 1 192.0.2.2 53 2 192.0.2.3 53 3 192.0.2.4 53 4 192.0.2.5 53 5 192.0.2.6 53 6 192.0.2.7 53 \
7 192.0.2.8 53 8 192.0.2.9 53 9 192.0.2.10 53",
        ),
        (3, "0 0 start 1 0 0 0 8 - 0"),
        (12, "0 0 servers 0 192.0.2.1 53"),
    ],
};

/// A channel that was destroyed takes no servers.
const DESTROYED: Spoiling<'static> = Spoiling {
    head: TWICE,
    entries: &["0 0 destroy"],
    page: "lawful 1 entries 0 accepted\n",
    spoiled: &[(1, "0 0 servers 1 192.0.2.2 53")],
};

/// The server with the greatest key leaves, and then another comes: it gets the next key all the same.
const NARROWED: Spoiling<'static> = Spoiling {
    head: TWICE,
    entries: &[
        "0 0 servers 1 192.0.2.2 53 2 192.0.2.3 53",
        "0 0 servers 1 192.0.2.2 53",
        "0 0 servers 1 192.0.2.2 53 3 192.0.2.4 53",
    ],
    page: "lawful 3 entries 0 accepted\n",
    spoiled: &[(2, "0 0 servers 1 192.0.2.2 53 2 192.0.2.4 53")],
};

/// A truncated reply has the question asked once more of the first server, over TCP; but that has left.
const FORCED: Spoiling<'static> = Spoiling {
    head: TWICE,
    entries: &[
        "0 0 accept 1 q 782e746573742e 1 1 ( 0 )",
        "0 0 start 1 0 0 0 7 - 0",
        "0 0 arrive 0 0 000783800001000000000001017804746573740000010001\
00002904d0000000000000",
        "0 0 servers 1 192.0.2.2 53 2 192.0.2.3 53",
        "0 0 start 1 0 1 1 8 - 1",
    ],
    page: "lawful 5 entries 1 accepted\n1 pending\n",
    spoiled: &[(4, "0 0 start 1 0 0 1 8 - 1")],
};

/// How long an attempt waits is settled where it begins: here in the second round of two servers, of which one leaves then.
const SECOND_ROUND: Spoiling<'static> = Spoiling {
    head: TWICE,
    entries: &[
        "0 0 accept 1 q 782e746573742e 1 1 ( 0 )",
        "0 0 start 1 0 0 0 7 - 0",
        "0 0 expire 1 0 2000",
        "0 0 start 1 0 1 0 8 - 2000",
        "0 0 expire 1 0 4000",
        "0 0 start 1 0 0 0 9 - 4000",
        "0 0 servers 0 192.0.2.1 53",
        "0 0 expire 1 0 8000",
    ],
    page: "lawful 8 entries 1 accepted\n1 12 ETIMEOUT\n",
    spoiled: &[(7, "0 0 expire 1 0 7999")],
};

/// The only server leaves, and one at another port of its address comes, or one of IPv6 with the same number.
const OTHER_PORT: Spoiling<'static> = Spoiling {
    head: "journal 1
option 2000 3 1 0 00000010 0 0 1232
server 192.0.2.1 53
hosts -
",
    entries: &[
        "0 0 accept 1 q 782e746573742e 1 1 ( 0 )",
        "0 0 start 1 0 0 0 7 - 0",
        "0 0 servers 1 192.0.2.1 5353",
        "0 0 start 1 0 1 0 8 - 0",
    ],
    page: "lawful 4 entries 1 accepted\n1 pending\n",
    spoiled: &[
        (2, "0 0 servers 0 192.0.2.1 5353"),
        (2, "0 0 servers 0 ::c000:201 53"),
    ],
};

const RUNS: [Spoiling<'static>; 6] = [MOVED, DESTROYED, NARROWED, FORCED, SECOND_ROUND, OTHER_PORT];

#[test]
fn runs_of_servers_are_refused_where_they_are_spoiled(rt: HostRuntime) -> Result<(), Fail> {
    assert_eq!(rt; first_other(rt.alloc(), &RUNS)?, None);
    Ok(())
}
