//! When a kept answer ends.

use super::calls::Call::{Hit, Keep, Miss};
use super::calls::{A, CNAME, Call, first_wrong};
use query_cache::QueryCache;
use std::test::Fail;

/// A ttl of one second from the moment 5000 on ends at 6000: one millisecond before it the answer is given, and at the end
/// itself it is not. An answer that ended is still there for a look at an earlier moment, and a new one takes its place.
const THE_END: [Call<'static>; 9] = [
    Keep(5000, "a.test", 1, &[(A, 1)]),
    Hit(0, "a.test", 1),
    Hit(5999, "a.test", 1),
    Miss(6000, "a.test"),
    Miss(u64::MAX, "a.test"),
    Hit(5999, "a.test", 1),
    Keep(6000, "a.test", 2, &[(A, 2)]),
    Hit(7999, "a.test", 2),
    Miss(8000, "a.test"),
];

#[test]
fn the_end_itself_is_a_miss(rt: HostRuntime) -> Result<(), Fail> {
    let mut cache = QueryCache::make(rt.alloc(), 4, 86_400)?;
    assert!(rt; first_wrong(rt.alloc(), &mut cache, &THE_END)? == None);
    Ok(())
}

/// An alias that lives for a minute leads to an address that lives for five: the answer lives for a minute. So it is where
/// the alias comes last.
const A_CHAIN: [Call<'static>; 6] = [
    Keep(0, "a.test", 1, &[(CNAME, 60), (A, 300)]),
    Hit(59_999, "a.test", 1),
    Miss(60_000, "a.test"),
    Keep(100, "a.test", 2, &[(A, 300), (CNAME, 60)]),
    Hit(60_099, "a.test", 2),
    Miss(60_100, "a.test"),
];

#[test]
fn a_chain_lives_as_long_as_its_first_to_die(rt: HostRuntime) -> Result<(), Fail> {
    let mut cache = QueryCache::make(rt.alloc(), 4, 86_400)?;
    assert!(rt; first_wrong(rt.alloc(), &mut cache, &A_CHAIN)? == None);
    Ok(())
}

/// No answer is kept for longer than the cache keeps one, here for a minute.
const THE_MOST: [Call<'static>; 3] = [
    Keep(1, "a.test", 1, &[(A, 604_800), (A, u32::MAX)]),
    Hit(60_000, "a.test", 1),
    Miss(60_001, "a.test"),
];

#[test]
fn an_answer_ends_with_the_most(rt: HostRuntime) -> Result<(), Fail> {
    let mut cache = QueryCache::make(rt.alloc(), 4, 60)?;
    assert!(rt; first_wrong(rt.alloc(), &mut cache, &THE_MOST)? == None);
    Ok(())
}

/// An end past what 64 bits count comes after every moment.
const PAST_ALL: [Call<'static>; 5] = [
    Keep(u64::MAX, "a.test", 1, &[(A, 1)]),
    Hit(u64::MAX, "a.test", 1),
    Keep(u64::MAX - 1000, "a.test", 2, &[(A, 1)]),
    Hit(u64::MAX - 1, "a.test", 2),
    Miss(u64::MAX, "a.test"),
];

#[test]
fn an_end_past_all_moments(rt: HostRuntime) -> Result<(), Fail> {
    let mut cache = QueryCache::make(rt.alloc(), 1, 604_800)?;
    assert!(rt; first_wrong(rt.alloc(), &mut cache, &PAST_ALL)? == None);
    Ok(())
}
