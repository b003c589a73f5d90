//! What a run leaves, as plain data; and the same run once more with `--journal`.

use super::outside::{Outside, outside_of};
use super::{Scenario, Wanted};
use adig_tool::{Ended, run};
use chan_types::Calls;
use scenario::{Shown, calls_told, journal_told, sent_in, words_of};
use std::alloc::Global;
use std::test::Fail;
use stored_run::{lawful_page, page_status, replayed};

/// What a run leaves, as plain data: a check is long where a run's end, or what a run was lent, may be dropped behind a `?`.
#[derive(Drop)]
pub struct Outcome {
    pub status: u8,
    pub put: Vec<u8>,
    /// How many callbacks were called.
    pub called: u64,
    /// How many entries the journal has, and their lines.
    pub entries: usize,
    pub journal: String,
    /// How often the network was called, the lines of the calls that have one, and the bytes that were sent.
    pub count: usize,
    pub calls: String,
    pub sent: Vec<u8>,
    /// The same of the network with cookies, without lines.
    pub outer_count: usize,
    pub outer_sent: Vec<u8>,
}

/// What a run leaves. It is made once more with `--journal`, and fails here where that isn't as it has to be.
pub fn outcome_of(alloc: Global, scenario: &Scenario<'_>) -> Result<Outcome, Fail> {
    outcome_in(alloc, scenario, &mut outside_of(alloc, scenario)?)
}

/// The same of a run that is lent this.
pub fn outcome_in(
    alloc: Global,
    scenario: &Scenario<'_>,
    outside: &mut Outside,
) -> Result<Outcome, Fail> {
    let words = words_of(alloc, scenario.line)?;
    let outcome = played(alloc, words.as_slice(), scenario.turns, outside)?;
    if has_book(alloc, scenario, &outcome)? {
        Ok(outcome)
    } else {
        Err("with --journal the run leaves something else")?
    }
}

/// What the run leaves with `--journal` before its words.
pub fn booked_outcome(alloc: Global, scenario: &Scenario<'_>) -> Result<Outcome, Fail> {
    let mut words = Vec::new(alloc);
    words.push("--journal")?;
    words.extend_from_slice(words_of(alloc, scenario.line)?.as_slice())?;
    let mut outside = outside_of(alloc, scenario)?;
    played(alloc, words.as_slice(), scenario.turns, &mut outside)
}

/// Plays a run.
fn played(
    alloc: Global,
    words: &[&str],
    turns: u64,
    outside: &mut Outside,
) -> Result<Outcome, Fail> {
    let ended = ended(alloc, words, turns, outside);
    told_of(alloc, &ended, outside)
}

/// How a run ends. No other function calls `run`: its clauses are long, and who calls this doesn't have them.
fn ended(alloc: Global, words: &[&str], turns: u64, outside: &mut Outside) -> Ended {
    let Outside { files, world, sink } = outside;
    run(alloc, words, files, world, sink, turns)
}

/// What a run leaves that ended so.
fn told_of(alloc: Global, ended: &Ended, outside: &Outside) -> Result<Outcome, Fail> {
    let calls = outside.world.log().calls();
    let outer = ended.outer.as_slice();
    let entries = ended.journal.entries();
    Ok(Outcome {
        status: ended.status,
        put: outside.sink.bytes().to_vec(alloc)?,
        called: counted(&ended.calls),
        entries: entries.len(),
        journal: journal_told(alloc, entries)?,
        count: calls.len(),
        calls: calls_told(alloc, calls, Shown::Servers)?,
        sent: sent_in(alloc, calls)?,
        outer_count: outer.len(),
        outer_sent: sent_in(alloc, outer)?,
    })
}

/// How many answers these are.
fn counted(calls: &Calls) -> u64 {
    let mut count = 0u64;
    for _ in calls.iter() {
        count = count.saturating_add(1);
    }
    count
}

/// Whether the run leaves the same with `--journal`, but that in place of its page it puts its book: a run that areplay finds
/// lawful, and whose request has the page's status. Where a run puts no page, since its words are refused or it ends by a
/// fault or without turns, it has no book either, and puts the same as without the flag.
fn has_book(alloc: Global, scenario: &Scenario<'_>, outcome: &Outcome) -> Result<bool, Fail> {
    let booked = booked_outcome(alloc, scenario)?;
    if !is_same(outcome, &booked) {
        return Ok(false);
    }
    if has_page(outcome.status) {
        is_book_of(alloc, outcome, booked.put.as_slice())
    } else {
        Ok(booked.put.as_slice() == outcome.put.as_slice())
    }
}

/// Whether two runs leave the same, but for what they put.
fn is_same(outcome: &Outcome, other: &Outcome) -> bool {
    outcome.status == other.status
        && outcome.called == other.called
        && outcome.journal.as_str() == other.journal.as_str()
        && outcome.calls.as_str() == other.calls.as_str()
        && have_sent_same(outcome, other)
}

/// Whether two runs called their networks as often, and sent the same.
fn have_sent_same(outcome: &Outcome, other: &Outcome) -> bool {
    outcome.count == other.count
        && outcome.outer_count == other.outer_count
        && outcome.sent.as_slice() == other.sent.as_slice()
        && outcome.outer_sent.as_slice() == other.outer_sent.as_slice()
}

/// Whether a run with this exit status puts a page: 0 and 1 alone say that it was put.
fn has_page(status: u8) -> bool {
    status <= 1
}

/// Whether areplay finds the run of this book lawful, with as many entries as the journal and the status of the page.
fn is_book_of(alloc: Global, outcome: &Outcome, book: &[u8]) -> Result<bool, Fail> {
    let page = String::from_utf8_lossy(alloc, outcome.put.as_slice())?;
    let status = page_status(page.as_str());
    let fate = format!(in alloc; "1 {status}\n")?;
    let wanted = lawful_page(alloc, outcome.entries, 1, fate.as_str())?;
    puts_replayed(alloc, book, wanted.as_str())
}

/// Whether areplay finds the run of this text lawful, and puts this.
pub fn puts_replayed(alloc: Global, book: &[u8], page: &str) -> Result<bool, Fail> {
    Ok(replayed(alloc, book)?.as_slice() == page.as_bytes())
}

/// Whether this is what a run has to leave.
pub fn is_left(outcome: &Outcome, wanted: &Wanted<'_>) -> bool {
    outcome.put.as_slice() == wanted.put.as_bytes() && is_told(outcome, wanted)
}

/// The same, but for what it put.
pub fn is_told(outcome: &Outcome, wanted: &Wanted<'_>) -> bool {
    outcome.status == wanted.status
        && outcome.called == wanted.called
        && outcome.journal.as_str() == wanted.journal
        && outcome.calls.as_str() == wanted.calls
        && wanted.sent.is_met(outcome.sent.as_slice())
}
