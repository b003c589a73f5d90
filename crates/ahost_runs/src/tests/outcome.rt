//! What a run leaves, as plain data; and the same run once more with `--journal`.

use super::bodies::bodies_for;
use super::fates::{Fates, fates_in};
use super::outside::{Outside, outside_of};
use super::statuses::USAGE;
use super::telling::{answers_told, attempts_told, is_called_once};
use super::{Scenario, Wanted};
use ahost_tool::{Ended, run};
use scenario::{Shown, calls_told, journal_told, words_of};
use std::alloc::Global;
use std::test::Fail;
use stored_run::{lawful_page, replayed};

/// What a run leaves, as plain data: a check is long where a run's end, or what a run was lent, may be dropped behind a `?`.
#[derive(Drop)]
pub struct Outcome {
    pub status: u8,
    pub put: Vec<u8>,
    /// How many entries the journal has, their lines, and those of the attempts with their identifiers.
    pub entries: usize,
    pub journal: String,
    pub attempts: String,
    /// How often the network was called, and the lines of the calls that have one.
    pub count: usize,
    pub network: String,
    /// The lines of the calls of callbacks, and whether each accepted request was called once, and nothing else.
    pub answers: String,
    pub once: bool,
}

/// What a run leaves. It is made once more with `--journal`, and fails here where that isn't as it has to be.
pub fn outcome_of(alloc: Global, scenario: &Scenario<'_>) -> Result<Outcome, Fail> {
    outcome_in(alloc, scenario, &mut outside_of(alloc, scenario)?)
}

/// The same of a run that is lent this.
pub fn outcome_in(
    alloc: Global,
    scenario: &Scenario<'_>,
    outside: &mut Outside,
) -> Result<Outcome, Fail> {
    let outcome = plain_outcome(alloc, scenario, outside)?;
    if has_book(alloc, scenario, &outcome)? {
        Ok(outcome)
    } else {
        Err("with --journal the run leaves something else")?
    }
}

/// The same of a run that is made once.
pub fn plain_outcome(
    alloc: Global,
    scenario: &Scenario<'_>,
    outside: &mut Outside,
) -> Result<Outcome, Fail> {
    let words = words_of(alloc, scenario.line)?;
    played(alloc, words.as_slice(), scenario, outside)
}

/// The exit status of a run that is made once, of which nothing else is told: the journal of a large load is long.
pub fn status_in(
    alloc: Global,
    scenario: &Scenario<'_>,
    outside: &mut Outside,
) -> Result<u8, Fail> {
    let words = words_of(alloc, scenario.line)?;
    Ok(ended(alloc, words.as_slice(), scenario, outside)?.status)
}

/// What the run leaves with `--journal` before its words.
pub fn booked_outcome(alloc: Global, scenario: &Scenario<'_>) -> Result<Outcome, Fail> {
    let mut words = Vec::new(alloc);
    words.push("--journal")?;
    words.extend_from_slice(words_of(alloc, scenario.line)?.as_slice())?;
    let mut outside = outside_of(alloc, scenario)?;
    played(alloc, words.as_slice(), scenario, &mut outside)
}

/// Plays a run with these words.
fn played(
    alloc: Global,
    words: &[&str],
    scenario: &Scenario<'_>,
    outside: &mut Outside,
) -> Result<Outcome, Fail> {
    let ended = ended(alloc, words, scenario, outside)?;
    told_of(alloc, &ended, outside)
}

/// How a run ends. No other function calls `run`: its clauses are long, and who calls this doesn't have them.
fn ended(
    alloc: Global,
    words: &[&str],
    scenario: &Scenario<'_>,
    outside: &mut Outside,
) -> Result<Ended, Fail> {
    let bodies = bodies_for(alloc, scenario.bodies)?;
    let Outside { files, world, sink } = outside;
    let turns = scenario.turns;
    Ok(run(alloc, words, bodies, files, world, sink, turns))
}

/// What a run leaves that ended so.
fn told_of(alloc: Global, ended: &Ended, outside: &Outside) -> Result<Outcome, Fail> {
    let calls = outside.world.log().calls();
    let entries = ended.journal.entries();
    Ok(Outcome {
        status: ended.status,
        put: outside.sink.bytes().to_vec(alloc)?,
        entries: entries.len(),
        journal: journal_told(alloc, entries)?,
        attempts: attempts_told(alloc, entries)?,
        count: calls.len(),
        network: calls_told(alloc, calls, Shown::Traffic)?,
        answers: answers_told(alloc, &ended.calls)?,
        once: is_called_once(entries, &ended.calls),
    })
}

/// Whether the run leaves with `--journal` what it has to.
fn has_book(alloc: Global, scenario: &Scenario<'_>, outcome: &Outcome) -> Result<bool, Fail> {
    if is_load(scenario.line) {
        return is_refused_with_book(alloc, scenario);
    }
    let booked = booked_outcome(alloc, scenario)?;
    Ok(is_same(outcome, &booked) && puts_book(alloc, outcome, booked.put.as_slice())?)
}

/// Whether the words ask for a load.
fn is_load(line: &str) -> bool {
    for word in line.split(' ') {
        if word == "--load" {
            return true;
        }
    }
    false
}

/// Whether the words of a run are refused with `--journal` before them, as those of a load are.
pub fn is_refused_with_book(alloc: Global, scenario: &Scenario<'_>) -> Result<bool, Fail> {
    Ok(is_left(&booked_outcome(alloc, scenario)?, &USAGE))
}

/// Whether two runs leave the same, but for what they put.
fn is_same(outcome: &Outcome, other: &Outcome) -> bool {
    outcome.status == other.status
        && outcome.journal.as_str() == other.journal.as_str()
        && outcome.count == other.count
        && outcome.network.as_str() == other.network.as_str()
        && outcome.answers.as_str() == other.answers.as_str()
}

/// Whether this was put by the run with `--journal` that puts this page without: its book, of which areplay finds that the run
/// is lawful, with as many entries as the journal and with the statuses of the page. Where a run puts no page, since its words
/// are refused or it ends by a fault or without turns, it has no book either, and puts the same as without the flag.
fn puts_book(alloc: Global, outcome: &Outcome, put: &[u8]) -> Result<bool, Fail> {
    if !has_page(outcome.status) {
        return Ok(put == outcome.put.as_slice());
    }
    let page = String::from_utf8_lossy(alloc, outcome.put.as_slice())?;
    is_book_of(
        alloc,
        put,
        outcome.entries,
        &fates_in(alloc, page.as_str())?,
    )
}

/// Whether a run with this exit status puts a page: 0 and 1 alone say that it was put.
fn has_page(status: u8) -> bool {
    status <= 1
}

/// Whether areplay finds the run of this book lawful, with so many entries, and with these fates of its requests.
fn is_book_of(alloc: Global, book: &[u8], entries: usize, fates: &Fates) -> Result<bool, Fail> {
    let page = lawful_page(alloc, entries, fates.count, fates.lines.as_str())?;
    puts_replayed(alloc, book, page.as_str())
}

/// Whether areplay finds the run of this text lawful, and puts this.
pub fn puts_replayed(alloc: Global, book: &[u8], page: &str) -> Result<bool, Fail> {
    Ok(replayed(alloc, book)?.as_slice() == page.as_bytes())
}

/// Whether this is what a run has to leave.
pub fn is_left(outcome: &Outcome, wanted: &Wanted<'_>) -> bool {
    outcome.put.as_slice() == wanted.put.as_bytes() && is_told(outcome, wanted)
}

/// The same, but for what it put.
pub fn is_told(outcome: &Outcome, wanted: &Wanted<'_>) -> bool {
    outcome.status == wanted.status
        && outcome.journal.as_str() == wanted.journal
        && outcome.network.as_str() == wanted.network
        && outcome.answers.as_str() == wanted.answers
}
