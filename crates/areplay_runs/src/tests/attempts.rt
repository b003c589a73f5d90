//! Spoiled runs: whose turn an attempt is, where it goes, with which identifier, and when it is due. The positions are
//! those of theorems in the crate channel_examples, and the statuses are by the same definitions.

use super::spoiling::{ONE, Spoiling, TWO, first_other};
use std::test::Fail;

/// Two servers, and two tries of each.
const TWO_TWICE: &str = "journal 1
option 2000 2 1 0 00000010 0 0 1232
server 192.0.2.53 53
server 192.0.2.54 53
hosts -
";

/// Silence goes round two servers, and the second round waits twice as long.
const SILENCE: Spoiling<'static> = Spoiling {
    head: TWO_TWICE,
    entries: &[
        "0 0 accept 1 q 782e746573742e 1 1 ( 0 )",
        "0 0 start 1 0 0 0 7 - 0",
        "0 0 expire 1 0 2000",
        "0 0 start 1 0 1 0 8 - 2000",
        "0 0 expire 1 0 4000",
        "0 0 start 1 0 0 0 9 - 4000",
        "0 0 expire 1 0 8000",
        "0 0 start 1 0 1 0 10 - 8000",
        "0 0 expire 1 0 12000",
        "0 0 take 1",
    ],
    page: "lawful 10 entries 1 accepted\n1 12 ETIMEOUT\n",
    spoiled: &[
        (2, "0 0 expire 1 0 1999"),
        (3, "0 0 start 1 0 0 0 8 - 2000"),
        (6, "0 0 expire 1 0 7999"),
        (8, "0 0 take 1"),
        (9, "0 0 start 1 0 0 0 11 - 12000"),
        (10, "0 0 take 1"),
    ],
};

/// Legs that are due at one moment expire by their requests, then by their numbers; they start in the same order.
const EQUAL_DEADLINES: Spoiling<'static> = Spoiling {
    head: ONE,
    entries: &[
        "0 0 accept 1 a 7777772e6578616d706c652e746573742e 0 1 ( 0 )",
        "0 0 accept 2 q 782e746573742e 1 1 ( 0 )",
        "0 0 accept 3 q 782e746573742e 1 1 ( 0 )",
        "0 0 start 1 0 0 0 7 - 0",
        "0 0 start 1 1 0 0 8 - 0",
        "0 0 start 2 0 0 0 9 - 0",
        "0 0 expire 1 0 2000",
        "0 0 expire 1 1 2000",
        "0 0 expire 2 0 2000",
    ],
    page: "lawful 9 entries 3 accepted\n1 pending\n2 pending\n3 pending\n",
    spoiled: &[
        (3, "0 0 start 3 0 0 0 7 - 0"),
        (6, "0 0 expire 1 1 2000"),
        (6, "0 0 expire 2 0 2000"),
    ],
};

/// Two requests share a link over TCP, which fails, and both go on over the next one.
const SHARED_LINK: Spoiling<'static> = Spoiling {
    head: "journal 1
option 2000 3 1 0 10000010 0 0 1232
server 192.0.2.53 53
hosts -
",
    entries: &[
        "0 0 accept 1 q 782e746573742e 1 1 ( 0 )",
        "0 0 accept 2 q 782e746573742e 1 1 ( 0 )",
        "0 0 start 1 0 0 1 7 - 0",
        "0 0 start 2 0 0 1 8 - 0",
        "0 0 fault 0 1 5",
        "0 0 start 1 0 0 2 9 - 5",
        "0 0 start 2 0 0 2 10 - 5",
    ],
    page: "lawful 7 entries 2 accepted\n1 pending\n2 pending\n",
    spoiled: &[
        (1, "0 0 accept 1 q 782e746573742e 1 1 ( 0 )"),
        (1, "0 0 accept 3 q 782e746573742e 1 1 ( 0 )"),
        (2, "0 0 start 1 0 0 0 7 - 0"),
        (2, "0 0 start 2 0 0 1 7 - 0"),
        (3, "0 0 start 2 0 0 2 8 - 0"),
        (5, "0 0 start 1 0 0 1 9 - 5"),
        (6, "0 0 start 2 0 0 2 9 - 5"),
    ],
};

/// With turns taken each leg begins one server further; a link is of one server.
const ROTATED: Spoiling<'static> = Spoiling {
    head: "journal 1
option 2000 3 1 0 10000010 1 0 1232
server 192.0.2.53 53
server 192.0.2.54 53
hosts -
",
    entries: &[
        "0 0 accept 1 q 782e746573742e 1 1 ( 0 )",
        "0 0 accept 2 q 782e746573742e 1 1 ( 0 )",
        "0 0 start 1 0 0 1 7 - 0",
        "0 0 start 2 0 1 2 8 - 0",
    ],
    page: "lawful 4 entries 2 accepted\n1 pending\n2 pending\n",
    spoiled: &[(3, "0 0 start 2 0 1 1 8 - 0")],
};

/// Nothing can be sent: three attempts fail, and the request ends.
const FAULTS: Spoiling<'static> = Spoiling {
    head: ONE,
    entries: &[
        "0 0 accept 1 q 782e746573742e 1 1 ( 0 )",
        "0 0 start 1 0 0 0 7 - 0",
        "0 0 fault 0 0 0",
        "0 0 start 1 0 0 0 8 - 0",
        "0 0 fault 0 0 0",
        "0 0 start 1 0 0 0 9 - 0",
        "0 0 fault 0 0 0",
        "0 0 take 1",
    ],
    page: "lawful 8 entries 1 accepted\n1 11 ECONNREFUSED\n",
    spoiled: &[(5, "0 0 take 1")],
};

/// The right reply comes from the server that wasn't asked, and is passed over.
const WRONG_SERVER: Spoiling<'static> = Spoiling {
    head: TWO,
    entries: &[
        "0 0 accept 1 q 782e746573742e 1 1 ( 0 )",
        "0 0 start 1 0 0 0 7 - 0",
        "0 0 arrive 1 0 000781800001000100000001017804746573740000010001\
c00c000100010000003c0004c000020100002904d0000000000000",
        "0 0 expire 1 0 2000",
        "0 0 start 1 0 1 0 8 - 2000",
    ],
    page: "lawful 5 entries 1 accepted\n1 pending\n",
    spoiled: &[(4, "0 0 start 1 0 0 0 8 - 2000")],
};

/// A request for addresses of IPv6 alone has the second leg.
const SECOND_LEG: Spoiling<'static> = Spoiling {
    head: ONE,
    entries: &[
        "0 0 accept 1 a 782e746573742e 2 0 ( 0 )",
        "0 0 start 1 1 0 0 7 - 0",
    ],
    page: "lawful 2 entries 1 accepted\n1 pending\n",
    spoiled: &[(1, "0 0 start 1 0 0 0 7 - 0")],
};

/// Where the first server alone is asked it gets all tries, and the waits grow with each.
const FIRST_ALONE: Spoiling<'static> = Spoiling {
    head: "journal 1
option 2000 2 1 0 01000010 0 0 1232
server 192.0.2.53 53
server 192.0.2.54 53
hosts -
",
    entries: &[
        "0 0 accept 1 q 782e746573742e 1 1 ( 0 )",
        "0 0 start 1 0 0 0 7 - 0",
        "0 0 expire 1 0 2000",
        "0 0 start 1 0 0 0 8 - 2000",
        "0 0 expire 1 0 6000",
        "0 0 take 1",
    ],
    page: "lawful 6 entries 1 accepted\n1 12 ETIMEOUT\n",
    spoiled: &[(3, "0 0 start 1 0 1 0 8 - 2000")],
};

/// A longest wait that is longer than an attempt's doesn't lengthen it: the second has 4,000 milliseconds.
const PATIENT: Spoiling<'static> = Spoiling {
    head: "journal 1
option 2000 3 1 5000 00000010 0 0 1232
server 192.0.2.53 53
hosts -
",
    entries: &[
        "0 0 accept 1 q 782e746573742e 1 1 ( 0 )",
        "0 0 start 1 0 0 0 7 - 0",
        "0 0 expire 1 0 2000",
        "0 0 start 1 0 0 0 8 - 2000",
        "0 0 expire 1 0 6000",
        "0 0 start 1 0 0 0 9 - 6000",
    ],
    page: "lawful 6 entries 1 accepted\n1 pending\n",
    spoiled: &[(4, "0 0 expire 1 0 5999")],
};

const RUNS: [Spoiling<'static>; 9] = [
    SILENCE,
    EQUAL_DEADLINES,
    SHARED_LINK,
    ROTATED,
    FAULTS,
    WRONG_SERVER,
    SECOND_LEG,
    FIRST_ALONE,
    PATIENT,
];

#[test]
fn runs_of_attempts_are_refused_where_they_are_spoiled(rt: HostRuntime) -> Result<(), Fail> {
    assert_eq!(rt; first_other(rt.alloc(), &RUNS)?, None);
    Ok(())
}
