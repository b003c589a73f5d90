//! Addresses that come over the network, of both families and of one.

use super::{Case, RUN, Scenario, Wanted, first_wrong};
use std::test::Fail;

/// The replies for `www.example.test.` A and AAAA: 192.0.2.1, and 2001:db8::5 (RFC 1035, section 4.1; RFC 3596).
const FOUR: &[u8] =
    b"\x12\x34\x81\x80\0\x01\0\x01\0\0\0\0\x03www\x07example\x04test\0\0\x01\0\x01\xc0\x0c\0\x01\0\x01\0\0\x01\x2c\0\x04\xc0\0\x02\x01";

const SIX: &[u8] =
    b"\x12\x35\x81\x80\0\x01\0\x01\0\0\0\0\x03www\x07example\x04test\0\0\x1c\0\x01\xc0\x0c\0\x1c\0\x01\0\0\x01\x2c\0\x10\x20\x01\x0d\xb8\0\0\0\0\0\0\0\0\0\0\0\x05";

const BOTH_ASKED: &str = "serve 0 of 3221226037 at 53\nsend to 0\nsend to 0\nwait to 2000\n";

const BOTH_ANSWERED: &str = "accept 1
start 1 on 0 over 0 at 0
start 1 on 0 over 0 at 0
arrive from 0 over 0
arrive from 0 over 0
take 1
destroy
";

/// Both families are asked and sorted (RFC 6724, section 6: an address of IPv6 has the greater precedence).
const BOTH_FAMILIES_ARE_ASKED: Case = Case {
    shows: "both families are asked",
    run: Scenario {
        line: "--server 192.0.2.53 --no-edns www.example.test.",
        replies: &[FOUR, SIX],
        ..RUN
    },
    wanted: Wanted {
        status: 0,
        put: "www.example.test. 0 SUCCESS\n  2001:db8::5\n  192.0.2.1\n",
        journal: BOTH_ANSWERED,
        network: BOTH_ASKED,
        answers: "1 status 0\n",
    },
};

/// Without sorting the address of IPv4 comes first.
const BOTH_FAMILIES_ARE_LEFT_UNSORTED: Case = Case {
    shows: "both families are left unsorted",
    run: Scenario {
        line: "--server 192.0.2.53 --no-edns --no-sort www.example.test.",
        replies: &[FOUR, SIX],
        ..RUN
    },
    wanted: Wanted {
        status: 0,
        put: "www.example.test. 0 SUCCESS\n  192.0.2.1\n  2001:db8::5\n",
        journal: BOTH_ANSWERED,
        network: BOTH_ASKED,
        answers: "1 status 0\n",
    },
};

/// One family is silent, and times out: what the other has is found.
const ONE_FAMILY_IS_ENOUGH: Case = Case {
    shows: "one family is enough",
    run: Scenario {
        line: "--server 192.0.2.53 --no-edns --tries 1 www.example.test.",
        replies: &[FOUR],
        ..RUN
    },
    wanted: Wanted {
        status: 0,
        put: "www.example.test. 0 SUCCESS\n  192.0.2.1\n",
        journal: "accept 1
start 1 on 0 over 0 at 0
start 1 on 0 over 0 at 0
arrive from 0 over 0
expire 1 at 2000
take 1
destroy
",
        network: "serve 0 of 3221226037 at 53
send to 0
send to 0
wait to 2000
wait to 2000
",
        answers: "1 status 0\n",
    },
};

/// One family is asked alone.
const ONE_FAMILY_IS_ASKED: Case = Case {
    shows: "one family is asked",
    run: Scenario {
        line: "--server 192.0.2.53 --no-edns --family 4 www.example.test.",
        replies: &[FOUR],
        ..RUN
    },
    wanted: Wanted {
        status: 0,
        put: "www.example.test. 0 SUCCESS\n  192.0.2.1\n",
        journal: "accept 1
start 1 on 0 over 0 at 0
arrive from 0 over 0
take 1
destroy
",
        network: "serve 0 of 3221226037 at 53\nsend to 0\nwait to 2000\n",
        answers: "1 status 0\n",
    },
};

/// Runs for both families, and for one.
const FAMILIES: &[Case] = &[
    BOTH_FAMILIES_ARE_ASKED,
    BOTH_FAMILIES_ARE_LEFT_UNSORTED,
    ONE_FAMILY_IS_ENOUGH,
    ONE_FAMILY_IS_ASKED,
];

#[test]
fn families_are_asked(rt: HostRuntime) -> Result<(), Fail> {
    assert_eq!(rt; first_wrong(rt.alloc(), FAMILIES)?, "");
    Ok(())
}
