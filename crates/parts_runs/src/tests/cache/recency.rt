//! Which question makes room for another.

use super::calls::Call::{Hit, Keep, Miss, Refuse};
use super::calls::{A, Call, answer, first_wrong, given, question};
use query_cache::QueryCache;
use std::alloc::Global;
use std::test::Fail;

const ROOM_FOR_ONE: [Call<'static>; 7] = [
    Keep(0, "a.test", 1, &[(A, 300)]),
    Hit(0, "a.test", 1),
    Keep(0, "b.test", 2, &[(A, 300)]),
    Miss(0, "a.test"),
    Hit(0, "b.test", 2),
    Keep(0, "b.test", 3, &[(A, 300)]),
    Hit(0, "b.test", 3),
];

#[test]
fn a_room_for_one(rt: HostRuntime) -> Result<(), Fail> {
    let mut cache = QueryCache::make(rt.alloc(), 1, 86_400)?;
    assert!(rt; first_wrong(rt.alloc(), &mut cache, &ROOM_FOR_ONE)? == None);
    Ok(())
}

/// Of two the one whose last use is older goes: a look that gives an answer is a use, and so is a keep of an old question.
const USES: [Call<'static>; 12] = [
    Keep(0, "a.test", 1, &[(A, 300)]),
    Keep(0, "b.test", 2, &[(A, 300)]),
    Hit(0, "a.test", 1),
    // a was looked at: b goes.
    Keep(0, "c.test", 3, &[(A, 300)]),
    Miss(0, "b.test"),
    Hit(0, "c.test", 3),
    Hit(0, "a.test", 1),
    // c is kept again: a goes.
    Keep(0, "c.test", 4, &[(A, 300)]),
    Keep(0, "b.test", 5, &[(A, 300)]),
    Miss(0, "a.test"),
    Hit(0, "c.test", 4),
    Hit(0, "b.test", 5),
];

#[test]
fn looks_and_keeps_are_uses(rt: HostRuntime) -> Result<(), Fail> {
    let mut cache = QueryCache::make(rt.alloc(), 2, 86_400)?;
    assert!(rt; first_wrong(rt.alloc(), &mut cache, &USES)? == None);
    Ok(())
}

/// A look that finds an answer past its end is no use, and a keep that is refused is none: the one whose last use is older
/// still goes.
const NO_USES: [Call<'static>; 7] = [
    Keep(0, "a.test", 1, &[(A, 1)]),
    Keep(0, "b.test", 2, &[(A, 300)]),
    Miss(1000, "a.test"),
    Refuse(0, "a.test", 3, &[(A, 0)]),
    Keep(0, "c.test", 4, &[(A, 300)]),
    Miss(0, "a.test"),
    Hit(0, "b.test", 2),
];

#[test]
fn misses_are_no_uses(rt: HostRuntime) -> Result<(), Fail> {
    let mut cache = QueryCache::make(rt.alloc(), 2, 86_400)?;
    assert!(rt; first_wrong(rt.alloc(), &mut cache, &NO_USES)? == None);
    Ok(())
}

/// The greatest room.
const MOST_ROOM: u64 = 65_536;

/// Whether an answer is kept for each of so many names.
fn are_kept(alloc: Global, cache: &mut QueryCache, count: u64) -> Result<bool, Fail> {
    for number in 0..count {
        let asked = question(alloc, format!(in alloc; "h{number}.test")?.as_str())?;
        if !cache.keep(&asked, answer(alloc, number, &[(A, 300)])?, 0)? {
            return Ok(false);
        }
    }
    Ok(true)
}

/// Whether the answer of each is given, by the name in other letters, one millisecond before its end.
fn are_given(alloc: Global, cache: &mut QueryCache, count: u64) -> Result<bool, Fail> {
    for number in 0..count {
        let asked = question(alloc, format!(in alloc; "H{number}.Test")?.as_str())?;
        if given(cache, &asked, 299_999)? != Some(number) {
            return Ok(false);
        }
    }
    Ok(true)
}

/// With one more than there is room for the one goes whose last use is the oldest.
const ONE_MORE: [Call<'static>; 6] = [
    Hit(0, "h0.test", 0),
    Keep(0, "more.test", 70_000, &[(A, 300)]),
    Miss(0, "h1.test"),
    Hit(0, "h0.test", 0),
    Hit(0, "h2.test", 2),
    Hit(0, "more.test", 70_000),
];

// All of 65,536 questions stand, and not one more.
#[test]
fn a_full_room(rt: HostRuntime) -> Result<(), Fail> {
    let alloc = rt.alloc();
    let mut cache = QueryCache::make(alloc, MOST_ROOM, 86_400)?;
    assert!(rt; are_kept(alloc, &mut cache, MOST_ROOM)?);
    assert!(rt; are_given(alloc, &mut cache, MOST_ROOM)?);
    assert!(rt; first_wrong(alloc, &mut cache, &ONE_MORE)? == None);
    Ok(())
}
