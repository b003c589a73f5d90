//! Spoiled runs: requests that are accepted, ready, taken, cancelled, and ended with their channel. The positions are those
//! of theorems in the crate channel_examples, and the statuses are by the same definitions.

use super::spoiling::{ONE, Spoiling, first_other};
use std::test::Fail;

/// The good reply with identifier 7 to the question for the A records of `x.test`, with the address 192.0.2.1 and an OPT
/// record (RFC 1035, section 4.1; RFC 6891, section 6.1.2).
const GOOD: &str = "0 0 arrive 0 0 0007818000010001000000010178047465737400000100\
01c00c000100010000003c0004c000020100002904d0000000000000";

/// Three requests are cancelled; the callback of the first asks another, which the cancel doesn't touch.
const CANCELLED: Spoiling<'static> = Spoiling {
    head: ONE,
    entries: &[
        "0 0 accept 1 q 782e746573742e 1 1 ( 0 )",
        "0 0 accept 2 q 782e746573742e 1 1 ( 0 )",
        "0 0 accept 3 q 782e746573742e 1 1 ( 0 )",
        "0 0 start 1 0 0 0 7 - 0",
        "0 0 cancel",
        "0 0 take 1",
        "0 1 accept 4 q 782e746573742e 1 1 ( 0 )",
        "0 0 take 2",
        "0 0 take 3",
        "0 0 start 4 0 0 0 7 - 1",
        GOOD,
        "0 0 take 4",
    ],
    page: "lawful 12 entries 4 accepted
1 24 ECANCELLED
2 24 ECANCELLED
3 24 ECANCELLED
4 0 SUCCESS
",
    spoiled: &[
        (5, "0 0 expire 1 0 2000"),
        (5, "0 0 cancel"),
        (5, "0 0 take 2"),
    ],
};

/// The callback of the first request destroys the channel: the others complete, and nothing is accepted any more.
const DESTROYED: Spoiling<'static> = Spoiling {
    head: ONE,
    entries: &[
        "0 0 accept 1 q 782e746573742e 1 1 ( 0 )",
        "0 0 accept 2 q 782e746573742e 1 1 ( 0 )",
        "0 0 accept 3 q 782e746573742e 1 1 ( 0 )",
        "0 0 start 1 0 0 0 7 - 0",
        GOOD,
        "0 0 take 1",
        "0 1 destroy",
        "0 0 take 2",
        "0 0 take 3",
    ],
    page: "lawful 9 entries 3 accepted
1 0 SUCCESS
2 16 EDESTRUCTION
3 16 EDESTRUCTION
",
    spoiled: &[
        (7, "0 0 accept 4 q 782e746573742e 1 1 ( 0 )"),
        (7, "0 0 destroy"),
        (7, "0 0 cancel"),
        (7, "0 0 start 2 0 0 0 8 - 0"),
    ],
};

/// A destroy ends what is in flight.
const DESTROYED_IN_FLIGHT: Spoiling<'static> = Spoiling {
    head: ONE,
    entries: &[
        "0 0 accept 1 q 782e746573742e 1 1 ( 0 )",
        "0 0 start 1 0 0 0 7 - 0",
        "0 0 destroy",
    ],
    page: "lawful 3 entries 1 accepted\n1 16 EDESTRUCTION\n",
    spoiled: &[(3, "0 0 expire 1 0 2000")],
};

/// The right reply comes twice: the first ends the leg, and the second is passed over.
const SECOND_REPLY: Spoiling<'static> = Spoiling {
    head: ONE,
    entries: &[
        "0 0 accept 1 q 782e746573742e 1 1 ( 0 )",
        "0 0 start 1 0 0 0 7 - 0",
        GOOD,
        GOOD,
        "0 0 take 1",
    ],
    page: "lawful 5 entries 1 accepted\n1 0 SUCCESS\n",
    spoiled: &[
        (2, "0 0 take 1"),
        (3, "0 0 expire 1 0 2000"),
        (3, "0 0 start 1 0 0 0 8 - 1"),
        (3, "0 0 cancel"),
    ],
};

/// A reply that comes at the moment of the deadline, before the leg expires, counts: then the leg doesn't expire.
const LAST_MOMENT: Spoiling<'static> = Spoiling {
    head: "journal 1
option 2000 1 1 0 00000010 0 0 1232
server 192.0.2.53 53
hosts -
",
    entries: &[
        "0 0 accept 1 q 782e746573742e 1 1 ( 0 )",
        "0 0 start 1 0 0 0 7 - 0",
        GOOD,
        "0 0 take 1",
    ],
    page: "lawful 4 entries 1 accepted\n1 0 SUCCESS\n",
    spoiled: &[(3, "0 0 expire 1 0 2000")],
};

/// A host's addresses of both families are asked for: the request is ready once both legs have ended (RFC 3596, section
/// 2.2, for those of IPv6).
const BOTH_LEGS: Spoiling<'static> = Spoiling {
    head: ONE,
    entries: &[
        "0 0 accept 1 a 7777772e6578616d706c652e746573742e 0 0 ( 0 )",
        "0 0 start 1 0 0 0 7 - 0",
        "0 0 start 1 1 0 0 8 - 0",
        "0 0 arrive 0 0 00078180000100010000000003777777076578616d706c65047465737400\
00010001c00c000100010000003c0004c0000201",
        "0 0 arrive 0 0 00088180000100010000000003777777076578616d706c65047465737400\
001c0001c00c001c00010000003c001020010db8000000000000000000000005",
        "0 0 take 1",
    ],
    page: "lawful 6 entries 1 accepted\n1 0 SUCCESS\n",
    spoiled: &[(4, "0 0 take 1")],
};

const RUNS: [Spoiling<'static>; 6] = [
    CANCELLED,
    DESTROYED,
    DESTROYED_IN_FLIGHT,
    SECOND_REPLY,
    LAST_MOMENT,
    BOTH_LEGS,
];

#[test]
fn runs_of_requests_are_refused_where_they_are_spoiled(rt: HostRuntime) -> Result<(), Fail> {
    assert_eq!(rt; first_other(rt.alloc(), &RUNS)?, None);
    Ok(())
}
