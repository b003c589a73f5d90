//! Spoiled runs: what a reply has the leg do next. The positions are those of theorems in the crate channel_examples, and
//! the statuses are by the same definitions. Replies are by RFC 1035, section 4.1, and RFC 6891, section 6.1.2.

use super::spoiling::{ONE, Spoiling, TWO, first_other};
use std::test::Fail;

/// The truncated reply with identifier 7 to the question for the A records of `x.test`, with an OPT record.
const TRUNCATED_REPLY: &str =
    "0 0 arrive 0 0 00078380000100000000000101780474657374000001000100002904d0000000000000";

/// The reply with identifier 7 that refuses the OPT record, by having none and response code FORMERR.
const REFUSAL: &str = "0 0 arrive 0 0 000781810001000000000000017804746573740000010001";

/// A truncated reply comes over UDP: the same server is asked over TCP.
const TRUNCATED: Spoiling<'static> = Spoiling {
    head: TWO,
    entries: &[
        "0 0 accept 1 q 782e746573742e 1 1 ( 0 )",
        "0 0 start 1 0 0 0 7 - 0",
        TRUNCATED_REPLY,
        "0 0 start 1 0 0 1 8 - 1",
        "0 0 arrive 0 1 000881800001000100000001017804746573740000010001\
c00c000100010000003c0004c000020100002904d0000000000000",
        "0 0 take 1",
    ],
    page: "lawful 6 entries 1 accepted\n1 0 SUCCESS\n",
    spoiled: &[
        (3, "0 0 start 1 0 0 0 8 - 1"),
        (3, "0 0 start 1 0 1 1 8 - 1"),
        (3, "0 0 start 1 0 0 2 8 - 1"),
    ],
};

/// Over TCP the leg stays when an attempt fails.
const STAYS_ON_TCP: Spoiling<'static> = Spoiling {
    head: ONE,
    entries: &[
        "0 0 accept 1 q 782e746573742e 1 1 ( 0 )",
        "0 0 start 1 0 0 0 7 - 0",
        TRUNCATED_REPLY,
        "0 0 start 1 0 0 1 8 - 1",
        "0 0 fault 0 1 2",
        "0 0 start 1 0 0 2 9 - 2",
    ],
    page: "lawful 6 entries 1 accepted\n1 pending\n",
    spoiled: &[(5, "0 0 start 1 0 0 0 9 - 2")],
};

/// Another request is in flight over UDP: over TCP the first one doesn't go over that link.
const BESIDE_UDP: Spoiling<'static> = Spoiling {
    head: ONE,
    entries: &[
        "0 0 accept 1 q 782e746573742e 1 1 ( 0 )",
        "0 0 accept 2 q 782e746573742e 1 1 ( 0 )",
        "0 0 start 1 0 0 0 7 - 0",
        "0 0 start 2 0 0 0 8 - 0",
        TRUNCATED_REPLY,
        "0 0 start 1 0 0 1 9 - 1",
    ],
    page: "lawful 6 entries 2 accepted\n1 pending\n2 pending\n",
    spoiled: &[(5, "0 0 start 1 0 0 0 9 - 1")],
};

/// The first of two servers can't answer (SERVFAIL), and the other one is asked at once.
const SERVER_FAILURE: Spoiling<'static> = Spoiling {
    head: TWO,
    entries: &[
        "0 0 accept 1 q 782e746573742e 1 1 ( 0 )",
        "0 0 start 1 0 0 0 7 - 0",
        "0 0 arrive 0 0 000781820001000000000001017804746573740000010001\
00002904d0000000000000",
        "0 0 start 1 0 1 0 8 - 1",
        "0 0 arrive 1 0 000881800001000100000001017804746573740000010001\
c00c000100010000003c0004c000020100002904d0000000000000",
        "0 0 take 1",
    ],
    page: "lawful 6 entries 1 accepted\n1 0 SUCCESS\n",
    spoiled: &[(3, "0 0 start 1 0 0 0 8 - 1"), (4, "0 0 expire 1 0 2000")],
};

/// A server refuses the OPT record: the same server is asked without one.
const REFUSED_OPT: Spoiling<'static> = Spoiling {
    head: TWO,
    entries: &[
        "0 0 accept 1 q 782e746573742e 1 1 ( 0 )",
        "0 0 start 1 0 0 0 7 - 0",
        REFUSAL,
        "0 0 start 1 0 0 0 8 - 1",
        "0 0 arrive 0 0 000881800001000100000000017804746573740000010001\
c00c000100010000003c0004c0000201",
        "0 0 take 1",
    ],
    page: "lawful 6 entries 1 accepted\n1 0 SUCCESS\n",
    spoiled: &[(3, "0 0 start 1 0 1 0 8 - 1")],
};

/// So it is where turns are taken, in which the second request begins at the second server.
const REFUSED_OPT_IN_TURN: Spoiling<'static> = Spoiling {
    head: "journal 1
option 2000 3 1 0 00000010 1 0 1232
server 192.0.2.53 53
server 192.0.2.54 53
hosts -
",
    entries: &[
        "0 0 accept 1 q 782e746573742e 1 1 ( 0 )",
        "0 0 accept 2 q 782e746573742e 1 1 ( 0 )",
        "0 0 start 1 0 0 0 7 - 0",
        REFUSAL,
        "0 0 start 1 0 0 0 8 - 0",
        "0 0 start 2 0 1 0 9 - 0",
    ],
    page: "lawful 6 entries 2 accepted\n1 pending\n2 pending\n",
    spoiled: &[
        (4, "0 0 start 1 0 1 0 8 - 0"),
        (5, "0 0 start 2 0 0 0 9 - 0"),
    ],
};

/// There is no such name (NXDOMAIN), which ends the leg.
const NO_SUCH_NAME: Spoiling<'static> = Spoiling {
    head: ONE,
    entries: &[
        "0 0 accept 1 q 782e746573742e 1 1 ( 0 )",
        "0 0 start 1 0 0 0 7 - 0",
        "0 0 arrive 0 0 000781830001000000000001017804746573740000010001\
00002904d0000000000000",
        "0 0 take 1",
    ],
    page: "lawful 4 entries 1 accepted\n1 4 ENOTFOUND\n",
    spoiled: &[(3, "0 0 start 1 0 0 0 8 - 1")],
};

/// A server doesn't implement the question (NOTIMP), and it is asked again; then a reply has another response code
/// (YXDOMAIN), which ends the leg.
const ANOTHER_CODE: Spoiling<'static> = Spoiling {
    head: ONE,
    entries: &[
        "0 0 accept 1 q 782e746573742e 1 1 ( 0 )",
        "0 0 start 1 0 0 0 7 - 0",
        "0 0 arrive 0 0 000781840001000000000001017804746573740000010001\
00002904d0000000000000",
        "0 0 start 1 0 0 0 8 - 1",
        "0 0 arrive 0 0 000881860001000000000001017804746573740000010001\
00002904d0000000000000",
        "0 0 take 1",
    ],
    page: "lawful 6 entries 1 accepted\n1 10 EBADRESP\n",
    spoiled: &[(5, "0 0 start 1 0 0 0 9 - 2")],
};

/// The reply with identifier 7 that refuses the OPT record and is truncated.
const TRUNCATED_REFUSAL: &str = "0 0 arrive 0 0 000783810001000000000000017804746573740000010001";

/// A reply refuses the OPT record and is truncated: over UDP it has the question asked over TCP, and there without one.
const REFUSED_AND_TRUNCATED: Spoiling<'static> = Spoiling {
    head: ONE,
    entries: &[
        "0 0 accept 1 q 782e746573742e 1 1 ( 0 )",
        "0 0 start 1 0 0 0 7 - 0",
        TRUNCATED_REFUSAL,
        "0 0 start 1 0 0 1 8 - 1",
        "0 0 arrive 0 1 000883810001000000000000017804746573740000010001",
        "0 0 start 1 0 0 2 9 - 2",
    ],
    page: "lawful 6 entries 1 accepted\n1 pending\n",
    spoiled: &[(3, "0 0 start 1 0 0 0 8 - 1")],
};

/// Where truncation is ignored, the refusal counts over UDP, and the question is asked again there.
const TRUNCATION_IGNORED: Spoiling<'static> = Spoiling {
    head: "journal 1
option 2000 3 1 0 00100010 0 0 1232
server 192.0.2.53 53
hosts -
",
    entries: &[
        "0 0 accept 1 q 782e746573742e 1 1 ( 0 )",
        "0 0 start 1 0 0 0 7 - 0",
        TRUNCATED_REFUSAL,
        "0 0 start 1 0 0 0 8 - 1",
    ],
    page: "lawful 4 entries 1 accepted\n1 pending\n",
    spoiled: &[(3, "0 0 start 1 0 0 1 8 - 1")],
};

/// A name is searched for: by each domain, and then as it is.
const SEARCHED: Spoiling<'static> = Spoiling {
    head: "journal 1
option 2000 3 1 0 00000010 0 0 1232
server 192.0.2.53 53
domain a.test.
domain b.test.
hosts -
",
    entries: &[
        "0 0 accept 1 s 777777 1 1 ( 0 )",
        "0 0 start 1 0 0 0 7 - 0",
        "0 0 arrive 0 0 00078183000100000000000003777777016104746573740000010001",
        "0 0 start 1 2 0 0 8 - 0",
        "0 0 arrive 0 0 00088180000100000000000003777777016204746573740000010001",
        "0 0 start 1 4 0 0 9 - 0",
        "0 0 arrive 0 0 000981830001000000000000037777770000010001",
        "0 0 take 1",
    ],
    page: "lawful 8 entries 1 accepted\n1 1 ENODATA\n",
    spoiled: &[
        (3, "0 0 start 1 0 0 0 8 - 0"),
        (3, "0 0 start 1 4 0 0 8 - 0"),
        (7, "0 0 start 1 6 0 0 10 - 0"),
    ],
};

/// One leg of two has ended, and the other has failed once: it alone is asked again.
const HALF_ENDED: Spoiling<'static> = Spoiling {
    head: ONE,
    entries: &[
        "0 0 accept 1 a 782e746573742e 0 0 ( 0 )",
        "0 0 start 1 0 0 0 7 - 0",
        "0 0 start 1 1 0 0 8 - 0",
        "0 0 arrive 0 0 000781800001000100000000017804746573740000010001\
c00c000100010000003c0004c0000201",
        "0 0 expire 1 1 2000",
        "0 0 start 1 1 0 0 9 - 2000",
    ],
    page: "lawful 6 entries 1 accepted\n1 pending\n",
    spoiled: &[(5, "0 0 start 1 0 0 0 9 - 2000")],
};

/// The letters of a question are in drawn case, without an OPT record: the reply in plain case is passed over, and that
/// which repeats the question, `ExAmple.com`, is taken.
const MIXED_CASE: Spoiling<'static> = Spoiling {
    head: "journal 1
option 2000 3 1 0 00000001 0 0 1232
server 192.0.2.53 53
hosts -
",
    entries: &[
        "0 0 accept 1 q 6578616d706c652e636f6d 1 1 ( 0 )",
        "0 0 start 1 0 0 0 4660 5 0",
        "0 0 arrive 0 0 123481800001000100000000076578616d706c6503636f6d00\
00010001c00c000100010000003c0004c0000201",
        "0 0 arrive 0 0 123481800001000100000000074578416d706c6503636f6d00\
00010001c00c000100010000003c0004c0000201",
        "0 0 take 1",
    ],
    page: "lawful 5 entries 1 accepted\n1 0 SUCCESS\n",
    spoiled: &[(1, "0 0 start 1 0 0 0 4660 - 0"), (3, "0 0 take 1")],
};

/// Where case isn't drawn, there are no bits for it.
const PLAIN_CASE: Spoiling<'static> = Spoiling {
    head: "journal 1
option 2000 3 1 0 00000000 0 0 1232
server 192.0.2.53 53
hosts -
",
    entries: &[
        "0 0 accept 1 q 6578616d706c652e636f6d 1 1 ( 0 )",
        "0 0 start 1 0 0 0 4660 - 0",
    ],
    page: "lawful 2 entries 1 accepted\n1 pending\n",
    spoiled: &[(1, "0 0 start 1 0 0 0 4660 5 0")],
};

/// Nor over TCP.
const PLAIN_CASE_OVER_TCP: Spoiling<'static> = Spoiling {
    head: "journal 1
option 2000 3 1 0 10000001 0 0 1232
server 192.0.2.53 53
hosts -
",
    entries: &[
        "0 0 accept 1 q 6578616d706c652e636f6d 1 1 ( 0 )",
        "0 0 start 1 0 0 1 7 - 0",
    ],
    page: "lawful 2 entries 1 accepted\n1 pending\n",
    spoiled: &[(1, "0 0 start 1 0 0 1 7 5 0")],
};

const RUNS: [Spoiling<'static>; 15] = [
    TRUNCATED,
    STAYS_ON_TCP,
    BESIDE_UDP,
    SERVER_FAILURE,
    REFUSED_OPT,
    REFUSED_OPT_IN_TURN,
    NO_SUCH_NAME,
    ANOTHER_CODE,
    REFUSED_AND_TRUNCATED,
    TRUNCATION_IGNORED,
    SEARCHED,
    HALF_ENDED,
    MIXED_CASE,
    PLAIN_CASE,
    PLAIN_CASE_OVER_TCP,
];

#[test]
fn runs_of_replies_are_refused_where_they_are_spoiled(rt: HostRuntime) -> Result<(), Fail> {
    assert_eq!(rt; first_other(rt.alloc(), &RUNS)?, None);
    Ok(())
}
