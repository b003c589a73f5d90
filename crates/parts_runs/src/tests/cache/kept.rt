//! Which answers are kept, and for which questions they are given.

use super::calls::Call::{Hit, Keep, Miss, Refuse};
use super::calls::{A, Call, answer, answer_with, first_wrong, given, message, question};
use chan_types::{Answer, Status};
use query_cache::QueryCache;
use std::alloc::Global;
use std::test::Fail;

/// Case makes no other question; a label more and a label less do. A `@` is a `` ` `` with another bit, as letters have, but
/// no letter.
const OTHER_NAMES: [Call<'static>; 11] = [
    Keep(0, "Www.Example.COM", 1, &[(A, 300)]),
    Hit(10, "wWW.eXAMPLE.com.", 1),
    Keep(0, "www.example.com", 2, &[(A, 300)]),
    Hit(10, "WWW.EXAMPLE.COM", 2),
    Miss(10, "example.com"),
    Miss(10, "www.example"),
    Miss(10, "ww.wexample.com"),
    Miss(10, "www.example.con"),
    Miss(10, "."),
    Keep(0, "@.test", 3, &[(A, 300)]),
    Miss(10, "`.test"),
];

#[test]
fn names_that_differ_in_case_alone(rt: HostRuntime) -> Result<(), Fail> {
    let mut cache = QueryCache::make(rt.alloc(), 4, 86_400)?;
    assert!(rt; first_wrong(rt.alloc(), &mut cache, &OTHER_NAMES)? == None);
    Ok(())
}

/// The number of the answer that is given for a name, a kind and a class.
fn given_for(
    alloc: Global,
    cache: &mut QueryCache,
    name: &str,
    kind: u16,
    class: u16,
) -> Result<Option<u64>, Fail> {
    let mut asked = question(alloc, name)?;
    asked.kind = kind;
    asked.class = class;
    given(cache, &asked, 10)
}

/// Questions of a name, by kind and class, and the number of the answer that is given.
const QUESTIONS: [(u16, u16, Option<u64>); 3] = [(1, 1, Some(1)), (28, 1, None), (1, 3, None)];

/// The answer that is kept for its addresses.
const KEPT: [Call<'static>; 1] = [Keep(0, "a.test", 1, &[(A, 300)])];

// Kind and class make another question.
#[test]
fn kinds_and_classes_differ(rt: HostRuntime) -> Result<(), Fail> {
    let alloc = rt.alloc();
    let mut cache = QueryCache::make(alloc, 4, 86_400)?;
    assert!(rt; first_wrong(alloc, &mut cache, &KEPT)? == None);
    for (kind, class, number) in QUESTIONS.iter() {
        assert!(rt; given_for(alloc, &mut cache, "a.test", *kind, *class)? == *number);
    }
    Ok(())
}

/// One ttl of 0 is enough for an answer not to be kept. What was kept before stays.
const ZEROS: [Call<'static>; 10] = [
    Refuse(0, "a.test", 1, &[(A, 0), (A, 300)]),
    Miss(0, "a.test"),
    Refuse(0, "a.test", 1, &[(A, 300), (A, 0)]),
    Miss(0, "a.test"),
    Refuse(0, "a.test", 1, &[(A, 0), (A, 0)]),
    Miss(0, "a.test"),
    Keep(0, "a.test", 2, &[(A, 300), (A, 1)]),
    Refuse(0, "a.test", 3, &[(A, 300), (A, 0)]),
    Hit(999, "a.test", 2),
    Miss(1000, "a.test"),
];

#[test]
fn a_ttl_of_0_in_one_of_two_answers(rt: HostRuntime) -> Result<(), Fail> {
    let mut cache = QueryCache::make(rt.alloc(), 4, 86_400)?;
    assert!(rt; first_wrong(rt.alloc(), &mut cache, &ZEROS)? == None);
    Ok(())
}

/// All statuses but Success.
const FAILURES: [Status; 12] = [
    Status::NotFound,
    Status::NoData,
    Status::FormErr,
    Status::ServFail,
    Status::NotImp,
    Status::Refused,
    Status::BadName,
    Status::BadResp,
    Status::ConnRefused,
    Status::TimedOut,
    Status::Destruction,
    Status::Cancelled,
];

/// Whether an answer isn't kept for a name, and none is given for it then.
fn is_refused(
    alloc: Global,
    cache: &mut QueryCache,
    name: &str,
    answer: Answer,
) -> Result<bool, Fail> {
    let asked = question(alloc, name)?;
    Ok(!cache.keep(&asked, answer, 0)? && given(cache, &asked, 0)?.is_none())
}

/// Whether an answer with this status and a record isn't kept.
fn is_no_success(alloc: Global, cache: &mut QueryCache, status: Status) -> Result<bool, Fail> {
    let mut failed = answer(alloc, 1, &[(A, 300)])?;
    failed.status = status;
    is_refused(alloc, cache, "a.test", failed)
}

// Only the status Success is kept: no NXDOMAIN, whatever its message has, and none of the others.
#[test]
fn failures_are_not_kept(rt: HostRuntime) -> Result<(), Fail> {
    let mut cache = QueryCache::make(rt.alloc(), 4, 86_400)?;
    for status in FAILURES.iter() {
        assert!(rt; is_no_success(rt.alloc(), &mut cache, *status)?);
    }
    Ok(())
}

/// Whether an answer with this message isn't kept.
fn is_no_answer(alloc: Global, cache: &mut QueryCache, message: Vec<u8>) -> Result<bool, Fail> {
    let empty = answer_with(alloc, 1, Status::Success, message);
    is_refused(alloc, cache, "a.test", empty)
}

// A message without answers isn't kept, and neither are bytes that are no message: none, and one whose answer is cut off.
#[test]
fn nothing_to_keep(rt: HostRuntime) -> Result<(), Fail> {
    let alloc = rt.alloc();
    let mut cache = QueryCache::make(alloc, 4, 86_400)?;
    assert!(rt; is_no_answer(alloc, &mut cache, message(alloc, 0, &[])?)?);
    assert!(rt; is_no_answer(alloc, &mut cache, Vec::new(alloc))?);
    assert!(rt; is_no_answer(alloc, &mut cache, message(alloc, 1, &[])?)?);
    Ok(())
}
