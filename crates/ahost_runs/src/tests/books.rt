//! Runs that put their book in place of the page: its text, and what areplay says of it. Each other run is made with the flag
//! too, where it is played.

use super::names::A_RESOLV_CONF_NAMES_THE_SERVER;
use super::outcome::{booked_outcome, is_left, is_told, plain_outcome, puts_replayed};
use super::outside::{Outside, outside_of};
use super::reentry::{A_DESTROYED_CHANNEL_REFUSES, A_REQUEST_ASKED_DURING_A_CANCEL_STAYS};
use super::servers::SERVERS_ARE_SET_BEHIND_THE_FIRST_TURN;
use super::{Case, RUN, Scenario, Wanted};
use std::alloc::Global;
use std::test::Fail;

/// A reply to `1.2.0.192.in-addr.arpa.` PTR: `host.test.`, for 60 seconds (RFC 1035, section 3.3.12).
const POINTER: &[u8] =
    b"\x12\x34\x81\x80\0\x01\0\x01\0\0\0\0\x011\x012\x010\x03192\x07in-addr\x04arpa\0\0\x0c\0\x01\xc0\x0c\0\x0c\0\x01\0\0\0\x3c\0\x0b\x04host\x04test\0";

/// An address and a name that is never asked (RFC 7686, section 2), beside a hosts file. The callback of the address asks for
/// its names. The text is that of the manual of the format, line by line.
const A_RUN_IS_PUT_AS_TEXT: Case = Case {
    shows: "a run is put as text",
    run: Scenario {
        line: "--server 192.0.2.53 --no-edns --follow --journal 192.0.2.1 x.onion",
        hosts: Some(b"192.0.2.7 box\n"),
        replies: &[POINTER],
        ..RUN
    },
    wanted: Wanted {
        status: 1,
        put: "journal 1
option 2000 3 1 0 00000000 0 0 1232
server 192.0.2.53 53
hosts 3139322e302e322e3720626f780a
0 0 accept 1 a 3139322e302e322e31 0 0 ( 0 1 1 rev ( 4294967296 ) 1 2 cancel 0 3 destroy )
0 0 accept 2 a 782e6f6e696f6e 0 0 ( 1 1 1 rev ( 4294967297 ) 1 2 cancel 0 3 destroy )
0 0 take 1
0 1 accept 3 r 192.0.2.1 ( 4294967296 )
0 0 take 2
0 0 start 3 0 0 0 4660 - 0
0 0 arrive 0 0 12348180000100010000000001310132013003313932\
07696e2d61646472046172706100000c0001c00c000c00010000003c000b04686f7374047465737400
0 0 take 3
0 0 destroy
end
",
        journal: "accept 1
accept 2
take 1
by 1 accept 3
take 2
start 3 on 0 over 0 at 0
arrive from 0 over 0
take 3
destroy
",
        network: "serve 0 of 3221226037 at 53\nsend to 0\nwait to 2000\n",
        answers: "1 status 0\n2 status 4\n3 status 0\n",
    },
};

/// The line that stands in place of the page stands in place of the book as well.
const A_STALLED_RUN_PUTS_ITS_LINE: Case = Case {
    shows: "a stalled run puts its line",
    run: Scenario {
        line: "--server 192.0.2.53 --family 4 --journal x.test.",
        turns: 0,
        ..RUN
    },
    wanted: Wanted {
        status: 7,
        put: "ahost: stalled\n",
        journal: "accept 1\ndestroy\ntake 1\n",
        network: "serve 0 of 3221226037 at 53\n",
        answers: "1 status 16\n",
    },
};

/// Runs whose text is known.
const TEXTS: &[Case] = &[A_RUN_IS_PUT_AS_TEXT, A_STALLED_RUN_PUTS_ITS_LINE];

/// Whether a run leaves this whose words have the flag already.
fn leaves_once(alloc: Global, case: &Case, outside: &mut Outside) -> Result<bool, Fail> {
    Ok(is_left(&plain_outcome(alloc, &case.run, outside)?, &case.wanted))
}

/// What the first of these runs shows that leaves something else; nothing where none does.
fn first_other<'a>(alloc: Global, cases: &'a [Case]) -> Result<&'a str, Fail> {
    for case in cases {
        if !leaves_once(alloc, case, &mut outside_of(alloc, &case.run)?)? {
            return Ok(case.shows);
        }
    }
    Ok("")
}

#[test]
fn books_are_put(rt: HostRuntime) -> Result<(), Fail> {
    assert_eq!(rt; first_other(rt.alloc(), TEXTS)?, "");
    Ok(())
}

/// A run that is known without its book, and what areplay puts of the book.
#[derive(Clone, Copy)]
struct Row {
    case: Case,
    replayed: &'static str,
}

/// Runs with a resolv.conf and a hosts file, with callbacks that cancel, ask and destroy, and with servers that change. The
/// requests end as their callbacks were told.
const ROWS: &[Row] = &[
    Row {
        case: A_RESOLV_CONF_NAMES_THE_SERVER,
        replayed: "lawful 3 entries 1 accepted\n1 0 SUCCESS\n",
    },
    Row {
        case: A_REQUEST_ASKED_DURING_A_CANCEL_STAYS,
        replayed: "lawful 14 entries 5 accepted
1 24 ECANCELLED
2 24 ECANCELLED
3 24 ECANCELLED
4 0 SUCCESS
5 0 SUCCESS
",
    },
    Row {
        case: A_DESTROYED_CHANNEL_REFUSES,
        replayed: "lawful 11 entries 3 accepted\n1 0 SUCCESS\n2 16 EDESTRUCTION\n3 16 EDESTRUCTION\n",
    },
    Row {
        case: SERVERS_ARE_SET_BEHIND_THE_FIRST_TURN,
        replayed: "lawful 13 entries 1 accepted\n1 12 ETIMEOUT\n",
    },
];

/// Whether the run leaves with its book what it leaves without, but for its text, and areplay puts this of that.
fn is_replayed(alloc: Global, row: &Row) -> Result<bool, Fail> {
    let outcome = booked_outcome(alloc, &row.case.run)?;
    Ok(
        is_told(&outcome, &row.case.wanted)
            && puts_replayed(alloc, outcome.put.as_slice(), row.replayed)?,
    )
}

/// What the first of these runs shows of which that isn't so; nothing where it is of each.
fn first_unlawful<'a>(alloc: Global, rows: &'a [Row]) -> Result<&'a str, Fail> {
    for row in rows {
        if !is_replayed(alloc, row)? {
            return Ok(row.case.shows);
        }
    }
    Ok("")
}

#[test]
fn books_are_replayed(rt: HostRuntime) -> Result<(), Fail> {
    assert_eq!(rt; first_unlawful(rt.alloc(), ROWS)?, "");
    Ok(())
}
