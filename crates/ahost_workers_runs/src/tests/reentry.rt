//! Callbacks that command while other requests are pending: every page has the blocks of all of them.

use super::WORKERS;
use super::bodies::{Bodies, Deed, bodies_for};
use super::playing::{RUN, Scenario, network_of, play};
use std::alloc::Global;
use std::sync::Wait;
use std::test::*;
use std::thread::Threads;

/// What a callback does while others are pending, how those end, and how many requests it adds. All are silent. Where the
/// others are ended by the callback, they may time out before: the channel's turns go on beside it.
#[derive(Clone, Copy)]
struct Reentry {
    deeds: &'static [Deed],
    others: &'static str,
    added: u64,
}

const SILENT: &str = "x.test. 12 ETIMEOUT\n";

const CANCELLED: &str = "x.test. 24 ECANCELLED\n";

const DESTROYED: &str = "x.test. 16 EDESTRUCTION\n";

/// Each deed, and pairs of them.
const REENTRIES: &[Reentry] = &[
    Reentry {
        deeds: &[Deed::Ask],
        others: SILENT,
        added: 1,
    },
    Reentry {
        deeds: &[Deed::Ask, Deed::Ask],
        others: SILENT,
        added: 2,
    },
    Reentry {
        deeds: &[Deed::Cancel],
        others: CANCELLED,
        added: 0,
    },
    Reentry {
        deeds: &[Deed::Destroy],
        others: DESTROYED,
        added: 0,
    },
    Reentry {
        deeds: &[Deed::Cancel, Deed::Ask],
        others: CANCELLED,
        added: 1,
    },
    Reentry {
        deeds: &[Deed::Destroy, Deed::Ask],
        others: DESTROYED,
        added: 0,
    },
];

/// How many others are pending.
const OTHERS: &[u64] = &[1, 3, 100];

/// Adds this so many times.
fn add_times(text: &mut String, part: &str, count: u64) -> Result<(), Fail> {
    for _ in 0..count {
        text.push_str(part)?;
    }
    Ok(())
}

/// The words of a run for so many silent names, and behind them an address.
fn line_of(alloc: Global, others: u64) -> Result<String, Fail> {
    let mut line = String::from_str(alloc, "--server 192.0.2.53 --family 4 --tries 1")?;
    add_times(&mut line, " x.test.", others)?;
    line.push_str(" 192.0.2.1")?;
    Ok(line)
}

/// The page of a run, with the blocks of the others as they end here, and of what is added.
fn page_of(
    alloc: Global,
    others: u64,
    end: &str,
    reentry: &Reentry,
    inside: bool,
) -> Result<String, Fail> {
    let mut page = String::new(alloc);
    add_times(&mut page, end, others)?;
    page.push_str("192.0.2.1 0 SUCCESS\n  192.0.2.1\n")?;
    if inside {
        page.push_str("  192.0.2.1 0 SUCCESS\n    192.0.2.1\n")?;
    }
    let depth = if inside { "    " } else { "  " };
    for _ in 0..reentry.added {
        page.push_str(depth)?;
        page.push_str(SILENT)?;
    }
    Ok(page)
}

/// The page that a run puts, with each block of the others that timed out before as if it hadn't.
fn page_put<R: Threads + Wait + Sync>(
    rt: &R,
    alloc: Global,
    reentry: &Reentry,
    others: u64,
    inside: bool,
    workers: u64,
) -> Result<String, Fail> {
    let line = line_of(alloc, others)?;
    let scenario = Scenario {
        line: line.as_str(),
        ..RUN
    };
    let bodies = bodies_for(
        alloc,
        &Bodies {
            blank: others,
            deeds: &[reentry.deeds],
            inside,
        },
    )?;
    let world = network_of(alloc, &scenario)?;
    let page = play(rt, alloc, &scenario, "", workers, bodies, world)?;
    let text = String::from_utf8_lossy(alloc, page.put.as_slice())?;
    let mut shown = String::new(alloc);
    for (place, block) in text.split_inclusive('\n').enumerate() {
        let early = (place as u64) < others && block == SILENT;
        shown.push_str(if early { reentry.others } else { block })?;
    }
    Ok(shown)
}

/// Whether it is so with 1, 2 and 4 workers while so many others are pending.
fn is_right<R: Threads + Wait + Sync>(
    rt: &R,
    alloc: Global,
    reentry: &Reentry,
    others: u64,
    inside: bool,
) -> Result<bool, Fail> {
    let wanted = page_of(alloc, others, reentry.others, reentry, inside)?;
    for workers in WORKERS {
        let shown = page_put(rt, alloc, reentry, others, inside, workers)?;
        if shown.as_str() != wanted.as_str() {
            return Ok(false);
        }
    }
    Ok(true)
}

/// Whether it is so for each of the deeds, and for each count of others.
fn are_right<R: Threads + Wait + Sync>(rt: &R, alloc: Global, inside: bool) -> Result<bool, Fail> {
    for reentry in REENTRIES {
        for others in OTHERS {
            if !is_right(rt, alloc, reentry, *others, inside)? {
                return Ok(false);
            }
        }
    }
    Ok(true)
}

// In a callback, while 1, 3 and 100 others are pending.
#[test]
fn callbacks_command(rt: HostRuntime) -> Result<(), Fail> {
    assert!(rt; are_right(&rt, rt.alloc(), false)?);
    Ok(())
}

// In the callback of a callback.
#[test]
fn callbacks_of_callbacks_command(rt: HostRuntime) -> Result<(), Fail> {
    assert!(rt; are_right(&rt, rt.alloc(), true)?);
    Ok(())
}
