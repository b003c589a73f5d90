//! Runs of a load, over the network that they make: neither a file nor the network that they are given has a part in them.

use super::bodies::Bodies;
use super::outcome::{is_refused_with_book, outcome_of, status_in};
use super::outside::{Outside, outside_of};
use super::{RUN, Scenario};
use std::alloc::Global;
use std::test::Fail;

/// Whether a run with so many bodies leaves this status and text. A read of a file would fail in it.
fn puts(alloc: Global, line: &str, bodies: u64, status: u8, text: &str) -> Result<bool, Fail> {
    let scenario = Scenario {
        line,
        read_fails: &[0],
        bodies: Bodies::Reports(bodies),
        ..RUN
    };
    puts_in(
        alloc,
        &scenario,
        &mut outside_of(alloc, &scenario)?,
        status,
        text,
    )
}

/// The same of a run that is lent this: its network isn't called, and with `--journal` its words are refused.
fn puts_in(
    alloc: Global,
    scenario: &Scenario<'_>,
    outside: &mut Outside,
    status: u8,
    text: &str,
) -> Result<bool, Fail> {
    let found = status_in(alloc, scenario, outside)?;
    Ok(
        found == status
            && outside.sink.bytes() == text.as_bytes()
            && outside.world.log().calls().is_empty()
            && is_refused_with_book(alloc, scenario)?,
    )
}

/// The summary of twelve names: every fourth isn't there, and one first query in three is lost.
const TWELVE: &str = "load 12 seed 0
accepted 12
called 12
good 9
bad 3
starts 16
expires 4
";

#[test]
fn twelve_names_are_asked(rt: HostRuntime) -> Result<(), Fail> {
    assert!(rt; puts(rt.alloc(), "--load 12", 12, 1, TWELVE)?);
    Ok(())
}

/// The summary of the greatest load: 3,072 names are there, and the plan of seed 7 loses 1,365 first queries.
const FULL: &str = "load 4096 seed 7
accepted 4096
called 4096
good 3072
bad 1024
starts 5461
expires 1365
";

#[test]
fn a_full_load_is_asked(rt: HostRuntime) -> Result<(), Fail> {
    assert!(rt; puts(rt.alloc(), "--load 4096 --seed 7", 4096, 1, FULL)?);
    Ok(())
}

/// Options that have no effect on a load.
const IN_VAIN: &str = "--server 192.0.2.9 --port 5353 --tries 1 --tcp --quit --load 3 --seed 1";

/// The summary of three names, which are all there.
const THREE: &str = "load 3 seed 1
accepted 3
called 3
good 3
bad 0
starts 4
expires 1
";

#[test]
fn three_names_are_found(rt: HostRuntime) -> Result<(), Fail> {
    assert!(rt; puts(rt.alloc(), IN_VAIN, 4, 0, THREE)?);
    Ok(())
}

/// More names than there are bodies, and a load for workers.
#[test]
fn loads_are_refused(rt: HostRuntime) -> Result<(), Fail> {
    assert!(rt; puts(rt.alloc(), "--load 9", 8, 2, "ahost: usage\n")?);
    assert!(rt; puts(rt.alloc(), "--load 4 --workers 1", 8, 2, "ahost: usage\n")?);
    Ok(())
}

/// Whether a load makes these attempts: which request's, by which identifier, when, and which of them expired.
fn attempts(alloc: Global, line: &str, lines: &str) -> Result<bool, Fail> {
    let scenario = Scenario { line, ..RUN };
    Ok(outcome_of(alloc, &scenario)?.attempts.as_str() == lines)
}

/// The attempts of eight names by seed 7. Word i is 40503 i + 7, modulo 65536: words 0 to 7 are the identifiers of the first
/// turn, and word 8 is drawn where no leg waits any more, as is word 9 in the turn that receives the replies. The question
/// of request n has the number n - 1: by 2 + 7 and 5 + 7, multiples of three, the queries of requests 3 and 6 are lost. At
/// their deadline these are asked again, by words 10 and 11.
const SEED_7: &str = "start 1 by 7 at 0
start 2 by 40510 at 0
start 3 by 15477 at 0
start 4 by 55980 at 0
start 5 by 30947 at 0
start 6 by 5914 at 0
start 7 by 46417 at 0
start 8 by 21384 at 0
expire 3 at 2000
expire 6 at 2000
start 3 by 11821 at 2000
start 6 by 52324 at 2000
";

/// By seed 65000, each word is by 64,993 greater, which is by 543 less. Lost are the questions 1, 4 and 7: 65,001 is a
/// multiple of three.
const SEED_65000: &str = "start 1 by 65000 at 0
start 2 by 39967 at 0
start 3 by 14934 at 0
start 4 by 55437 at 0
start 5 by 30404 at 0
start 6 by 5371 at 0
start 7 by 45874 at 0
start 8 by 20841 at 0
expire 2 at 2000
expire 5 at 2000
expire 8 at 2000
start 2 by 11278 at 2000
start 5 by 51781 at 2000
start 8 by 26748 at 2000
";

/// What is lost tells a seed modulo three alone; the identifiers tell all of it.
#[test]
fn a_seed_gives_words_and_losses(rt: HostRuntime) -> Result<(), Fail> {
    assert!(rt; attempts(rt.alloc(), "--load 8 --seed 7", SEED_7)?);
    assert!(rt; attempts(rt.alloc(), "--load 8 --seed 65000", SEED_65000)?);
    Ok(())
}
