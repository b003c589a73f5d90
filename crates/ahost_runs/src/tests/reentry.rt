//! Callbacks that command: what each leaves in the journal, and that every accepted request is called once.

use super::bodies::{Bodies, Deed};
use super::outcome::outcome_of;
use super::{Case, RUN, Scenario, Wanted, first_wrong};
use std::alloc::Global;
use std::test::Fail;

/// A reply to the query for `x.test.` A with the first identifier: 192.0.2.1 (RFC 1035, section 4.1).
const REPLY: &[u8] =
    b"\x12\x34\x81\x80\0\x01\0\x01\0\0\0\0\x01x\x04test\0\0\x01\0\x01\xc0\x0c\0\x01\0\x01\0\0\x01\x2c\0\x04\xc0\0\x02\x01";

/// What a callback asks during a cancel isn't cancelled: it is pending then, and its reply counts.
pub(super) const A_REQUEST_ASKED_DURING_A_CANCEL_STAYS: Case = Case {
    shows: "a request asked during a cancel stays",
    run: Scenario {
        line: "--server 192.0.2.53 --no-edns --family 4 x.test. y.test. z.test. 192.0.2.1",
        replies: &[REPLY],
        bodies: Bodies::Deeds(&[&[Deed::Ask], &[], &[], &[Deed::Cancel]]),
        ..RUN
    },
    wanted: Wanted {
        status: 1,
        put: "x.test. 24 ECANCELLED
  x.test. 0 SUCCESS
    x.test. 300 IN A 192.0.2.1
y.test. 24 ECANCELLED
z.test. 24 ECANCELLED
192.0.2.1 0 SUCCESS
  192.0.2.1
",
        journal: "accept 1
accept 2
accept 3
accept 4
take 4
by 4 cancel
take 1
by 1 accept 5
take 2
take 3
start 5 on 0 over 0 at 0
arrive from 0 over 0
take 5
destroy
",
        network: "serve 0 of 3221226037 at 53\nsend to 0\nwait to 2000\n",
        answers: "4 status 0\n1 status 24\n2 status 24\n3 status 24\n5 status 0\n",
    },
};

/// A callback destroys the channel and then asks: that request is refused, and the others end with the channel.
pub(super) const A_DESTROYED_CHANNEL_REFUSES: Case = Case {
    shows: "a destroyed channel refuses",
    run: Scenario {
        line: "--server 192.0.2.53 --no-edns --family 4 x.test. y.test. z.test.",
        replies: &[REPLY],
        bodies: Bodies::Deeds(&[&[Deed::Destroy, Deed::Ask], &[], &[]]),
        ..RUN
    },
    wanted: Wanted {
        status: 1,
        put: "x.test. 0 SUCCESS
  192.0.2.1
y.test. 16 EDESTRUCTION
z.test. 16 EDESTRUCTION
",
        journal: "accept 1
accept 2
accept 3
start 1 on 0 over 0 at 0
start 2 on 0 over 0 at 0
start 3 on 0 over 0 at 0
arrive from 0 over 0
take 1
by 1 destroy
take 2
take 3
",
        network: "serve 0 of 3221226037 at 53
send to 0
send to 0
send to 0
wait to 2000
",
        answers: "1 status 0\n2 status 16\n3 status 16\n",
    },
};

/// Runs whose callbacks end requests.
const ENDED_BY_CALLBACKS: &[Case] = &[
    A_REQUEST_ASKED_DURING_A_CANCEL_STAYS,
    A_DESTROYED_CHANNEL_REFUSES,
];

#[test]
fn callbacks_end_requests(rt: HostRuntime) -> Result<(), Fail> {
    assert_eq!(rt; first_wrong(rt.alloc(), ENDED_BY_CALLBACKS)?, "");
    Ok(())
}

/// What a callback does while others are pending, how those end, and how many requests it adds. These are silent, as the
/// others are that end by no callback.
#[derive(Clone, Copy)]
struct Reentry {
    deeds: &'static [Deed],
    others: &'static str,
    added: u64,
}

/// Each deed, and pairs of them.
const REENTRIES: &[Reentry] = &[
    Reentry {
        deeds: &[Deed::Ask],
        others: "x.test. 12 ETIMEOUT\n",
        added: 1,
    },
    Reentry {
        deeds: &[Deed::Ask, Deed::Ask],
        others: "x.test. 12 ETIMEOUT\n",
        added: 2,
    },
    Reentry {
        deeds: &[Deed::Cancel],
        others: "x.test. 24 ECANCELLED\n",
        added: 0,
    },
    Reentry {
        deeds: &[Deed::Destroy],
        others: "x.test. 16 EDESTRUCTION\n",
        added: 0,
    },
    Reentry {
        deeds: &[Deed::Cancel, Deed::Ask],
        others: "x.test. 24 ECANCELLED\n",
        added: 1,
    },
    Reentry {
        deeds: &[Deed::Destroy, Deed::Ask],
        others: "x.test. 16 EDESTRUCTION\n",
        added: 0,
    },
];

/// How many others are pending.
const OTHERS: &[u64] = &[1, 3, 100];

/// In a callback, while 1, 3 and 100 others are pending.
#[test]
fn every_request_is_called_once(rt: HostRuntime) -> Result<(), Fail> {
    assert!(rt; are_right(rt.alloc())?);
    Ok(())
}

/// In the callback of a callback.
#[test]
fn every_request_is_called_once_inside(rt: HostRuntime) -> Result<(), Fail> {
    assert!(rt; are_right_inside(rt.alloc())?);
    Ok(())
}

/// Whether it is so for each of the deeds.
fn are_right(alloc: Global) -> Result<bool, Fail> {
    for reentry in REENTRIES {
        if !is_right_among(alloc, reentry)? {
            return Ok(false);
        }
    }
    Ok(true)
}

fn are_right_inside(alloc: Global) -> Result<bool, Fail> {
    for reentry in REENTRIES {
        if !is_right_inside_among(alloc, reentry)? {
            return Ok(false);
        }
    }
    Ok(true)
}

/// Whether it is so while 1, 3 and 100 others are pending.
fn is_right_among(alloc: Global, reentry: &Reentry) -> Result<bool, Fail> {
    for others in OTHERS {
        if !is_right(alloc, reentry, *others)? {
            return Ok(false);
        }
    }
    Ok(true)
}

fn is_right_inside_among(alloc: Global, reentry: &Reentry) -> Result<bool, Fail> {
    for others in OTHERS {
        if !is_right_inside(alloc, reentry, *others)? {
            return Ok(false);
        }
    }
    Ok(true)
}

/// Whether every request is called once, and the page is right, where the callback of a request that completes at once
/// commands while so many others are pending.
fn is_right(alloc: Global, reentry: &Reentry, others: u64) -> Result<bool, Fail> {
    let found = "192.0.2.1 0 SUCCESS\n  192.0.2.1\n";
    let page = page_of(alloc, reentry, others, found, "  x.test. 12 ETIMEOUT\n")?;
    let line = line_with(alloc, others)?;
    let bodies = Bodies::Last(others, reentry.deeds);
    is_played(alloc, line.as_str(), bodies, page.as_str())
}

/// The same where its callback asks a request that completes at once, whose callback commands.
fn is_right_inside(alloc: Global, reentry: &Reentry, others: u64) -> Result<bool, Fail> {
    let found = "192.0.2.1 0 SUCCESS\n  192.0.2.1\n  192.0.2.1 0 SUCCESS\n    192.0.2.1\n";
    let page = page_of(alloc, reentry, others, found, "    x.test. 12 ETIMEOUT\n")?;
    let line = line_with(alloc, others)?;
    let bodies = Bodies::Inside(others, reentry.deeds);
    is_played(alloc, line.as_str(), bodies, page.as_str())
}

/// Whether a run with these words and bodies calls each request once, and puts this page.
fn is_played<'a>(
    alloc: Global,
    line: &'a str,
    bodies: Bodies<'a>,
    page: &str,
) -> Result<bool, Fail> {
    let scenario = Scenario {
        line,
        bodies,
        ..RUN
    };
    let outcome = outcome_of(alloc, &scenario)?;
    Ok(outcome.once && outcome.put.as_slice() == page.as_bytes())
}

/// The page: the blocks of the others, of what is found, and of what is added.
fn page_of(
    alloc: Global,
    reentry: &Reentry,
    others: u64,
    found: &str,
    added: &str,
) -> Result<String, Fail> {
    let mut page = String::new(alloc);
    add_times(&mut page, reentry.others, others)?;
    page.push_str(found)?;
    add_times(&mut page, added, reentry.added)?;
    Ok(page)
}

/// The words of a run for so many silent names, and behind them an address.
fn line_with(alloc: Global, others: u64) -> Result<String, Fail> {
    let mut line = String::from_str(alloc, "--server 192.0.2.53 --family 4 --tries 1")?;
    add_times(&mut line, " x.test.", others)?;
    line.push_str(" 192.0.2.1")?;
    Ok(line)
}

/// Adds this so many times.
fn add_times(text: &mut String, part: &str, count: u64) -> Result<(), Fail> {
    for _ in 0..count {
        text.push_str(part)?;
    }
    Ok(())
}
