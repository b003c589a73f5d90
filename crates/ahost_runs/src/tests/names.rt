//! Names that are answered at once, and what is found by following them.

use super::{Case, RUN, Scenario, Wanted, first_wrong};
use std::test::Fail;

/// A hosts file as systems write it: `localhost` has an address of each family.
const HOSTS: &[u8] =
    b"127.0.0.1 localhost\n127.0.1.1 box\n::1 ip6-localhost ip6-loopback localhost\n";

/// A resolv.conf as systemd writes it.
const RESOLV: &[u8] =
    b"# made by systemd\nnameserver 127.0.0.53\noptions edns0 trust-ad\nsearch .\n";

/// Without a resolv.conf the server is 127.0.0.1, port 53 (resolv.conf(5)).
const LOCAL: &str = "serve 0 of 2130706433 at 53\n";

const GIVEN: &str = "serve 0 of 3221226037 at 53\n";

/// The addresses of the file are sorted (RFC 6724, section 6: `::1` has the greater precedence), and nothing is sent.
const LOCALHOST_IS_IN_THE_HOSTS_FILE: Case = Case {
    shows: "localhost is in the hosts file",
    run: Scenario {
        line: "localhost",
        hosts: Some(HOSTS),
        ..RUN
    },
    wanted: Wanted {
        status: 0,
        put: "localhost 0 SUCCESS\n  ::1\n  127.0.0.1\n",
        journal: "accept 1\ntake 1\ndestroy\n",
        network: LOCAL,
        answers: "1 status 0\n",
    },
};

/// The same with a resolv.conf: its server is told, and nothing is sent to it.
pub(super) const A_RESOLV_CONF_NAMES_THE_SERVER: Case = Case {
    shows: "a resolv conf names the server",
    run: Scenario {
        line: "localhost",
        resolv: Some(RESOLV),
        hosts: Some(HOSTS),
        ..RUN
    },
    wanted: Wanted {
        status: 0,
        put: "localhost 0 SUCCESS\n  ::1\n  127.0.0.1\n",
        journal: "accept 1\ntake 1\ndestroy\n",
        network: "serve 0 of 2130706485 at 53\n",
        answers: "1 status 0\n",
    },
};

/// Without sorting they come in the file's order.
const THE_ORDER_IS_AN_OPTION: Case = Case {
    shows: "the order is an option",
    run: Scenario {
        line: "--no-sort localhost",
        hosts: Some(HOSTS),
        ..RUN
    },
    wanted: Wanted {
        status: 0,
        put: "localhost 0 SUCCESS\n  127.0.0.1\n  ::1\n",
        journal: "accept 1\ntake 1\ndestroy\n",
        network: LOCAL,
        answers: "1 status 0\n",
    },
};

/// Of one family there is one.
const THE_FAMILY_IS_AN_OPTION: Case = Case {
    shows: "the family is an option",
    run: Scenario {
        line: "--family 6 localhost",
        hosts: Some(HOSTS),
        ..RUN
    },
    wanted: Wanted {
        status: 0,
        put: "localhost 0 SUCCESS\n  ::1\n",
        journal: "accept 1\ntake 1\ndestroy\n",
        network: LOCAL,
        answers: "1 status 0\n",
    },
};

/// Each name has its block, in the words' order, whatever its status; a name stands in it as it was given. A name under
/// onion is never asked (RFC 7686, section 2).
const EACH_NAME_HAS_ITS_BLOCK: Case = Case {
    shows: "each name has its block",
    run: Scenario {
        line: "192.0.2.1 X.onion 2001:DB8::1 192.0.2.1",
        ..RUN
    },
    wanted: Wanted {
        status: 1,
        put: "192.0.2.1 0 SUCCESS
  192.0.2.1
X.onion 4 ENOTFOUND
2001:DB8::1 0 SUCCESS
  2001:db8::1
192.0.2.1 0 SUCCESS
  192.0.2.1
",
        journal: "accept 1
accept 2
accept 3
accept 4
take 1
take 2
take 3
take 4
destroy
",
        network: LOCAL,
        answers: "1 status 0\n2 status 4\n3 status 0\n4 status 0\n",
    },
};

/// A reply to `1.2.0.192.in-addr.arpa.` PTR: `host.test.`, for 60 seconds (RFC 1035, section 3.3.12).
const POINTER: &[u8] =
    b"\x12\x34\x81\x80\0\x01\0\x01\0\0\0\0\x011\x012\x010\x03192\x07in-addr\x04arpa\0\0\x0c\0\x01\xc0\x0c\0\x0c\0\x01\0\0\0\x3c\0\x0b\x04host\x04test\0";

/// The callback of an address asks for its names, and their block stands in the address's, two blanks further.
const NAMES_OF_AN_ADDRESS_ARE_FOLLOWED: Case = Case {
    shows: "names of an address are followed",
    run: Scenario {
        line: "--server 192.0.2.53 --no-edns --follow 192.0.2.1",
        replies: &[POINTER],
        ..RUN
    },
    wanted: Wanted {
        status: 0,
        put: "192.0.2.1 0 SUCCESS
  192.0.2.1
  192.0.2.1 0 SUCCESS
    1.2.0.192.in-addr.arpa. 60 IN PTR host.test.
",
        journal: "accept 1
take 1
by 1 accept 2
start 2 on 0 over 0 at 0
arrive from 0 over 0
take 2
destroy
",
        network: "serve 0 of 3221226037 at 53\nsend to 0\nwait to 2000\n",
        answers: "1 status 0\n2 status 0\n",
    },
};

/// With `--first` what is found first cancels the others, whose callbacks are told so.
const THE_FIRST_CANCELS_THE_OTHERS: Case = Case {
    shows: "the first cancels the others",
    run: Scenario {
        line: "--server 192.0.2.53 --family 4 --first x.test. 192.0.2.1 y.test.",
        ..RUN
    },
    wanted: Wanted {
        status: 1,
        put: "x.test. 24 ECANCELLED
192.0.2.1 0 SUCCESS
  192.0.2.1
y.test. 24 ECANCELLED
",
        journal: "accept 1
accept 2
accept 3
take 2
by 2 cancel
take 1
take 3
destroy
",
        network: GIVEN,
        answers: "2 status 0\n1 status 24\n3 status 24\n",
    },
};

/// With `--quit` what completes first destroys the channel: the other is told so, and what would be followed is asked
/// before, and told so too.
const A_CALLBACK_DESTROYS_THE_CHANNEL: Case = Case {
    shows: "a callback destroys the channel",
    run: Scenario {
        line: "--server 192.0.2.53 --family 4 --quit --follow x.test. 192.0.2.1",
        ..RUN
    },
    wanted: Wanted {
        status: 1,
        put: "x.test. 16 EDESTRUCTION
192.0.2.1 0 SUCCESS
  192.0.2.1
  192.0.2.1 16 EDESTRUCTION
",
        journal: "accept 1
accept 2
take 2
by 2 accept 3
by 2 destroy
take 1
take 3
",
        network: GIVEN,
        answers: "2 status 0\n1 status 16\n3 status 16\n",
    },
};

/// Runs that send nothing.
const AT_ONCE: &[Case] = &[
    LOCALHOST_IS_IN_THE_HOSTS_FILE,
    A_RESOLV_CONF_NAMES_THE_SERVER,
    THE_ORDER_IS_AN_OPTION,
    THE_FAMILY_IS_AN_OPTION,
    EACH_NAME_HAS_ITS_BLOCK,
];

#[test]
fn names_are_answered_at_once(rt: HostRuntime) -> Result<(), Fail> {
    assert_eq!(rt; first_wrong(rt.alloc(), AT_ONCE)?, "");
    Ok(())
}

/// Runs whose callbacks command something.
const COMMANDED: &[Case] = &[
    NAMES_OF_AN_ADDRESS_ARE_FOLLOWED,
    THE_FIRST_CANCELS_THE_OTHERS,
    A_CALLBACK_DESTROYS_THE_CHANNEL,
];

#[test]
fn callbacks_command(rt: HostRuntime) -> Result<(), Fail> {
    assert_eq!(rt; first_wrong(rt.alloc(), COMMANDED)?, "");
    Ok(())
}
