//! Pages of runs, whichever worker calls which callback.

use super::WORKERS;
use super::bodies::{Bodies, Deed, bodies_for};
use super::playing::{Played, RUN, Scenario, is_lawful, network_of, play};
use super::still::Still;
use std::alloc::Global;
use std::sync::Wait;
use std::test::*;
use std::thread::Threads;

/// A run with these bodies, over a network on which time stands still or over that of its scenario, and what it has to leave.
#[derive(Clone, Copy)]
pub struct Row {
    shows: &'static str,
    run: Scenario<'static>,
    deeds: &'static [&'static [Deed]],
    still: bool,
    pub status: u8,
    pub put: &'static str,
}

/// A hosts file and a resolv.conf as systems write them.
const HOSTS: &[u8] =
    b"127.0.0.1 localhost\n127.0.1.1 box\n::1 ip6-localhost ip6-loopback localhost\n";

const RESOLV: &[u8] =
    b"# made by systemd\nnameserver 127.0.0.53\noptions edns0 trust-ad\nsearch .\n";

/// The replies for `www.example.test.` A and AAAA: 192.0.2.1, and 2001:db8::5 (RFC 1035, section 4.1; RFC 3596).
const FOUR: &[u8] =
    b"\x12\x34\x81\x80\0\x01\0\x01\0\0\0\0\x03www\x07example\x04test\0\0\x01\0\x01\xc0\x0c\0\x01\0\x01\0\0\x01\x2c\0\x04\xc0\0\x02\x01";

const SIX: &[u8] =
    b"\x12\x35\x81\x80\0\x01\0\x01\0\0\0\0\x03www\x07example\x04test\0\0\x1c\0\x01\xc0\x0c\0\x1c\0\x01\0\0\x01\x2c\0\x10\x20\x01\x0d\xb8\0\0\0\0\0\0\0\0\0\0\0\x05";

/// A reply to `1.2.0.192.in-addr.arpa.` PTR: `host.test.`, for 60 seconds (RFC 1035, section 3.3.12).
const POINTER: &[u8] =
    b"\x12\x34\x81\x80\0\x01\0\x01\0\0\0\0\x011\x012\x010\x03192\x07in-addr\x04arpa\0\0\x0c\0\x01\xc0\x0c\0\x0c\0\x01\0\0\0\x3c\0\x0b\x04host\x04test\0";

/// An address completes at once, and its callback asks for its names.
pub const FOLLOWED: Row = Row {
    shows: "names of an address are followed",
    run: Scenario {
        line: "--server 192.0.2.53 --no-edns --follow 192.0.2.1",
        replies: &[POINTER],
        ..RUN
    },
    deeds: &[&[Deed::Follow]],
    still: false,
    status: 0,
    put: "192.0.2.1 0 SUCCESS
  192.0.2.1
  192.0.2.1 0 SUCCESS
    1.2.0.192.in-addr.arpa. 60 IN PTR host.test.
",
};

/// The callback of the first name destroys the channel and asks again.
pub const DESTROYED: Row = Row {
    shows: "a destroyed channel refuses, and the others end with it",
    run: Scenario {
        line: "--server 192.0.2.53 --no-edns --family 4 x.test. y.test. z.test.",
        ..RUN
    },
    deeds: &[&[Deed::Destroy, Deed::Ask], &[], &[]],
    still: true,
    status: 1,
    put: "x.test. 0 SUCCESS
  192.0.2.1
y.test. 16 EDESTRUCTION
z.test. 16 EDESTRUCTION
",
};

const ROWS: &[Row] = &[
    Row {
        shows: "localhost is in the hosts file, and nothing is sent",
        run: Scenario {
            line: "localhost",
            resolv: Some(RESOLV),
            hosts: Some(HOSTS),
            ..RUN
        },
        deeds: &[&[]],
        still: false,
        status: 0,
        put: "localhost 0 SUCCESS\n  ::1\n  127.0.0.1\n",
    },
    Row {
        shows: "both families are asked and sorted (RFC 6724, section 6)",
        run: Scenario {
            line: "--server 192.0.2.53 --no-edns www.example.test.",
            replies: &[FOUR, SIX],
            ..RUN
        },
        deeds: &[&[]],
        still: false,
        status: 0,
        put: "www.example.test. 0 SUCCESS\n  2001:db8::5\n  192.0.2.1\n",
    },
    Row {
        shows: "without sorting the address of IPv4 comes first",
        run: Scenario {
            line: "--server 192.0.2.53 --no-edns --no-sort www.example.test.",
            replies: &[FOUR, SIX],
            ..RUN
        },
        deeds: &[&[]],
        still: false,
        status: 0,
        put: "www.example.test. 0 SUCCESS\n  192.0.2.1\n  2001:db8::5\n",
    },
    Row {
        shows: "one family is silent, and what the other has is found",
        run: Scenario {
            line: "--server 192.0.2.53 --no-edns --tries 1 www.example.test.",
            replies: &[FOUR],
            ..RUN
        },
        deeds: &[&[]],
        still: false,
        status: 0,
        put: "www.example.test. 0 SUCCESS\n  192.0.2.1\n",
    },
    FOLLOWED,
    Row {
        shows: "what is asked behind a cancel isn't cancelled",
        run: Scenario {
            line: "--server 192.0.2.53 --no-edns --family 4 y.test. y.test. z.test. 192.0.2.1",
            ..RUN
        },
        deeds: &[&[Deed::Ask], &[], &[], &[Deed::Cancel]],
        still: true,
        status: 1,
        put: "y.test. 24 ECANCELLED
  x.test. 0 SUCCESS
    x.test. 300 IN A 192.0.2.1
y.test. 24 ECANCELLED
z.test. 24 ECANCELLED
192.0.2.1 0 SUCCESS
  192.0.2.1
",
    },
    DESTROYED,
];

/// What a row leaves with so many workers, and with these options before its words.
pub fn play_row<R: Threads + Wait + Sync>(
    rt: &R,
    alloc: Global,
    row: &Row,
    options: &str,
    workers: u64,
) -> Result<Played, Fail> {
    let bodies = bodies_for(
        alloc,
        &Bodies {
            blank: 0,
            deeds: row.deeds,
            inside: false,
        },
    )?;
    if row.still {
        play(
            rt,
            alloc,
            &row.run,
            options,
            workers,
            bodies,
            Still::make(alloc),
        )
    } else {
        let world = network_of(alloc, &row.run)?;
        play(rt, alloc, &row.run, options, workers, bodies, world)
    }
}

/// Whether the row leaves what it has to, and with `--journal` a book that areplay finds lawful, with the same exit status.
fn is_right<R: Threads + Wait + Sync>(
    rt: &R,
    alloc: Global,
    row: &Row,
    workers: u64,
) -> Result<bool, Fail> {
    let page = play_row(rt, alloc, row, "", workers)?;
    let book = play_row(rt, alloc, row, "--journal ", workers)?;
    Ok(page.is(row.status, row.put) && book.status == row.status && is_lawful(alloc, &book)?)
}

/// The first row that doesn't leave what it has to, by what it shows.
fn first_wrong<R: Threads + Wait + Sync>(rt: &R, alloc: Global) -> Result<&'static str, Fail> {
    for row in ROWS {
        for workers in WORKERS {
            if !is_right(rt, alloc, row, workers)? {
                return Ok(row.shows);
            }
        }
    }
    Ok("")
}

#[test]
fn pages_are_right(rt: HostRuntime) -> Result<(), Fail> {
    assert_eq!(rt; first_wrong(&rt, rt.alloc())?, "");
    Ok(())
}
