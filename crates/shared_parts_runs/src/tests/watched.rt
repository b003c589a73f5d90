//! Numbers that are published, in one thread and beside a reader.

use std::alloc::Global;
use std::sync::Wait;
use std::test::*;
use std::thread::{Threads, join_mut};
use watched_value::{Publisher, Watcher};

/// How many are published beside a reader, and how often it looks.
const MANY: u64 = 20_000;

/// Publishes the numbers from 1 to this one, up to the first that is refused. Answers how many were published.
fn publish_up_to<R: Wait>(rt: &R, publisher: &mut Publisher<u64>, most: u64) -> u64 {
    for number in 0..most {
        if publisher.publish(rt, number + 1).is_err() {
            return number;
        }
    }
    most
}

/// Looks so many times. Answers how often it was shown less than before.
fn look_on(watcher: &mut Watcher<u64>, times: u64) -> u64 {
    let mut before = 0;
    let mut less = 0u64;
    for _ in 0..times {
        let now = watcher.show();
        if now < before {
            less = less.saturating_add(1);
        }
        before = now;
    }
    less
}

/// What a reader is shown, and its number.
fn looked(watcher: &mut Watcher<u64>) -> (u64, u64) {
    (watcher.show(), watcher.count())
}

/// What was published last, and its number.
fn last_of(publisher: &Publisher<u64>) -> (u64, u64) {
    (publisher.last(), publisher.count())
}

/// What a reader sees before, beside and behind a writer in another thread.
fn beside<R: Threads + Wait + Sync>(
    rt: &R,
    publisher: &mut Publisher<u64>,
) -> Option<[(u64, u64); 4]> {
    let mut watcher = publisher.watcher().ok()?;
    let first = looked(&mut watcher);
    let run = join_mut(
        rt,
        &mut || publish_up_to(rt, publisher, MANY),
        &mut || look_on(&mut watcher, MANY),
    );
    let behind = looked(&mut watcher);
    publisher.catch_up(&mut watcher);
    Some([first, run, behind, looked(&mut watcher)])
}

// A writer and a reader in two threads: the reader is never shown less than before, and the same reader is shown the last
// number once both are done, as is the one that then takes its place.
#[test]
fn a_reader_beside_the_writer(rt: HostRuntime) -> Result<(), Fail> {
    let mut publisher = Publisher::make(rt.alloc(), 2)?;
    let seen = beside(&rt, &mut publisher);
    let last = last_of(&publisher);
    publisher.close(&rt);
    assert!(rt; seen == Some([(0, 0), (20_000, 0), (20_000, 20_000), (20_000, 20_000)]));
    assert!(rt; last == (20_000, 20_000));
    Ok(())
}

/// What a reader is shown that is made behind the seventh number; behind the eighth, which is 70; and when its writer is gone.
fn late<R: Wait>(rt: &R, alloc: Global) -> Option<[(u64, u64); 3]> {
    let mut publisher = Publisher::make(alloc, 1).ok()?;
    let published = publish_up_to(rt, &mut publisher, 7);
    let made = publisher.watcher();
    let more = publisher.publish(rt, 70);
    let seen = match made {
        Ok(mut watcher) => {
            let begins = (watcher.count(), published);
            let shown = looked(&mut watcher);
            publisher.close(rt);
            [begins, shown, looked(&mut watcher)]
        }
        Err(_) => {
            publisher.close(rt);
            return None;
        }
    };
    more.ok()?;
    Some(seen)
}

// A reader that is made late has seen all; it is shown the next, and keeps it when the writer is gone.
#[test]
fn a_late_reader(rt: HostRuntime) -> Result<(), Fail> {
    assert!(rt; late(&rt, rt.alloc()) == Some([(7, 7), (70, 8), (70, 8)]));
    Ok(())
}

/// Where there is room for one reader: whether one is made, a second, and a third when the first is gone; and whether the
/// first catches up while no other place is free.
fn places(publisher: &mut Publisher<u64>) -> [bool; 4] {
    let made = publisher.watcher();
    let first = made.is_ok();
    let second = publisher.watcher().is_ok();
    let caught_up = match made {
        Ok(mut watcher) => publisher.catch_up(&mut watcher),
        Err(_) => true,
    };
    let third = publisher.watcher().is_ok();
    [first, second, third, caught_up]
}

// A place is taken as long as its reader is there.
#[test]
fn one_place(rt: HostRuntime) -> Result<(), Fail> {
    let mut publisher = Publisher::make(rt.alloc(), 1)?;
    let seen = places(&mut publisher);
    publisher.close(&rt);
    assert!(rt; seen == [true, false, true, false]);
    Ok(())
}
