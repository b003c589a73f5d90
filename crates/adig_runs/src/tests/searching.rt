//! Searches, and names of addresses.

use super::{Case, RUN, Scenario, Sent, Wanted, first_wrong};
use scenario::Coming;
use std::test::Fail;

/// Two domains (resolv.conf(5)).
const DOMAINS: &[u8] = b"nameserver 192.0.2.53\nsearch a.test b.test\n";

/// What three names are answered, each with response code 3, 0 without a record, and 3 (RFC 1035, section 4.1.1).
const NO_FIRST: &[u8] = b"\x12\x34\x81\x83\0\x01\0\0\0\0\0\0\x03www\x01a\x04test\0\0\x01\0\x01";

const EMPTY_SECOND: &[u8] = b"\x12\x34\x81\x80\0\x01\0\0\0\0\0\0\x03www\x01b\x04test\0\0\x01\0\x01";

const NO_THIRD: &[u8] = b"\x12\x34\x81\x83\0\x01\0\0\0\0\0\0\x03www\0\0\x01\0\x01";

/// The queries for them.
const QUERIES: &[u8] =
    b"\x12\x34\x01\0\0\x01\0\0\0\0\0\0\x03www\x01a\x04test\0\0\x01\0\x01\x12\x34\x01\0\0\x01\0\0\0\0\0\0\x03www\x01b\x04test\0\0\x01\0\x01\x12\x34\x01\0\0\x01\0\0\0\0\0\0\x03www\0\0\x01\0\x01";

/// A name without a dot is asked under each domain, and then as it is. One was empty, so that is the status; the message is
/// the last reply.
pub const SEARCH: Case = Case {
    shows: "a search goes through the domains",
    run: Scenario {
        line: "--search --no-edns www",
        resolv: Some(DOMAINS),
        comings: &[
            Coming::Datagram {
                from: 1,
                server: 0,
                bytes: NO_FIRST,
            },
            Coming::Datagram {
                from: 2,
                server: 0,
                bytes: EMPTY_SECOND,
            },
            Coming::Datagram {
                from: 3,
                server: 0,
                bytes: NO_THIRD,
            },
        ],
        ..RUN
    },
    wanted: Wanted {
        status: 1,
        put: ";; www IN A\n;; status 1 ENODATA\n;; id 4660 rcode 3 flags qr rd ra\n",
        journal: "accept 1
start 1 on 0 over 0 at 0
arrive from 0 over 0
start 1 on 0 over 0 at 1
arrive from 0 over 0
start 1 on 0 over 0 at 2
arrive from 0 over 0
take 1
destroy
",
        calls: "serve 0 of 3221226037 at 53\nwait to 2000\nwait to 2001\nwait to 2002\n",
        called: 1,
        sent: Sent::All(QUERIES),
    },
};

/// What comes where the name is asked as it is.
const NOT_THERE: &[Coming<'static>] = &[Coming::Datagram {
    from: 1,
    server: 0,
    bytes: NO_THIRD,
}];

const ANSWERED: &str = "accept 1
start 1 on 0 over 0 at 0
arrive from 0 over 0
take 1
destroy
";

/// It isn't there. One query is sent: a header, the name and the rest of the question.
const ASKED_AS_IT_IS: Wanted<'static> = Wanted {
    status: 1,
    put: ";; www IN A\n;; status 4 ENOTFOUND\n;; id 4660 rcode 3 flags qr rd ra\n",
    journal: ANSWERED,
    calls: "serve 0 of 3221226037 at 53\nwait to 2000\n",
    called: 1,
    sent: Sent::Last(12 + 5 + 4, b""),
};

/// Without `--search` the domains have no effect.
const NO_SEARCH: Case = Case {
    shows: "a query asks its name alone",
    run: Scenario {
        line: "--no-edns www",
        resolv: Some(DOMAINS),
        comings: NOT_THERE,
        ..RUN
    },
    wanted: ASKED_AS_IT_IS,
};

/// The file that systemd-resolved writes. Its domain is the root, so that a search asks the name as it is, once.
const SYSTEMD: &[u8] =
    b"# made by systemd\nnameserver 127.0.0.53\noptions edns0 trust-ad\nsearch .\n";

const ROOT: Case = Case {
    shows: "the root is a domain",
    run: Scenario {
        line: "--search --no-edns www",
        resolv: Some(SYSTEMD),
        comings: NOT_THERE,
        ..RUN
    },
    wanted: Wanted {
        calls: "serve 0 of 2130706485 at 53\nwait to 2000\n",
        ..ASKED_AS_IT_IS
    },
};

/// The reply with the name host.test of the address 192.0.2.1 (RFC 1035, section 3.5).
const NAMES: &[u8] =
    b"\x12\x34\x81\x80\0\x01\0\x01\0\0\0\0\x011\x012\x010\x03192\x07in-addr\x04arpa\0\0\x0c\0\x01\xc0\x0c\0\x0c\0\x01\0\0\0\x3c\0\x0b\x04host\x04test\0";

/// With `--reverse` the name of an address is asked, and type, class and `--search` have no effect.
pub const BACKWARDS: Case = Case {
    shows: "an address is asked backwards",
    run: Scenario {
        line: "--server 192.0.2.53 --reverse --search --type MX --no-edns 192.0.2.1",
        comings: &[Coming::Datagram {
            from: 1,
            server: 0,
            bytes: NAMES,
        }],
        ..RUN
    },
    wanted: Wanted {
        status: 0,
        put: ";; 192.0.2.1 IN PTR
;; status 0 SUCCESS
;; id 4660 rcode 0 flags qr rd ra
;; ANSWER
1.2.0.192.in-addr.arpa. 60 IN PTR host.test.
",
        journal: ANSWERED,
        calls: "serve 0 of 3221226037 at 53\nwait to 2000\n",
        called: 1,
        sent: Sent::Any,
    },
};

const NAMES_ASKED: &[Case] = &[SEARCH, NO_SEARCH, ROOT, BACKWARDS];

#[test]
fn names_are_asked(rt: HostRuntime) -> Result<(), Fail> {
    assert_eq!(rt; first_wrong(rt.alloc(), NAMES_ASKED)?, "");
    Ok(())
}
