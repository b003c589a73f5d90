//! What is left of a channel, as lines and numbers.

use chan_types::{Entry, NoMemory, What};
use shared_channel::Finished;
use std::alloc::Global;
use std::test::Fail;

/// What an entry notes.
fn word_of(alloc: Global, what: &What) -> Result<String, Fail> {
    Ok(match what {
        What::Accept { number, .. } => format!(in alloc; "accept {number}")?,
        What::Cancel => format!(in alloc; "cancel")?,
        What::Destroy => format!(in alloc; "destroy")?,
        What::Take { number } => format!(in alloc; "take {number}")?,
        What::Start { number, .. } => format!(in alloc; "start {number}")?,
        What::Arrive { .. } => format!(in alloc; "arrive")?,
        What::Expire { number, .. } => format!(in alloc; "expire {number}")?,
        What::Fault { .. } => format!(in alloc; "fault")?,
        What::Servers { .. } => format!(in alloc; "servers")?,
    })
}

/// The line of an entry, with the request on whose command it was made.
fn line_of(alloc: Global, entry: &Entry) -> Result<String, Fail> {
    let word = word_of(alloc, &entry.what)?;
    match entry.by {
        0 => Ok(format!(in alloc; "{word}\n")?),
        by => Ok(format!(in alloc; "{word} by {by}\n")?),
    }
}

/// The lines of the journal.
fn journal_told(alloc: Global, finished: &Finished) -> Result<String, Fail> {
    let mut text = String::new(alloc);
    for entry in finished.journal.entries.as_slice() {
        text.push_str(line_of(alloc, entry)?.as_str())?;
    }
    Ok(text)
}

/// The numbers of the requests whose callbacks were called, and the codes of their statuses, in order.
fn calls_told(alloc: Global, finished: &Finished) -> Result<Vec<(u64, u8)>, NoMemory> {
    let mut all = Vec::new(alloc);
    for answer in finished.calls.iter() {
        all.push((answer.number, answer.status.code()))?;
    }
    Ok(all)
}

/// What moves answered, and what is left of the channel.
#[derive(Drop)]
pub struct Played {
    pub told: Vec<u64>,
    pub finished: Finished,
}

/// What moves come to.
#[derive(Clone, Copy)]
pub struct End<'a> {
    /// What each move answers.
    pub told: &'a [u64],
    /// The lines of the journal.
    pub journal: &'a str,
    /// The numbers of the requests whose callbacks are called, and the codes of their statuses, in order.
    pub calls: &'a [(u64, u8)],
}

/// Whether moves came to this, and no request was lost.
pub fn ended_so(alloc: Global, played: &Played, end: &End<'_>) -> Result<bool, Fail> {
    let told = played.told.as_slice() == end.told;
    let kept = has_journal(alloc, &played.finished, end.journal)?;
    let called = has_calls(alloc, &played.finished, end.calls)?;
    Ok(told && kept && called && played.finished.lost == 0)
}

/// Whether these are the lines of the journal.
pub fn has_journal(alloc: Global, finished: &Finished, lines: &str) -> Result<bool, Fail> {
    Ok(journal_told(alloc, finished)?.as_str() == lines)
}

/// Whether these are the calls of the callbacks.
pub fn has_calls(
    alloc: Global,
    finished: &Finished,
    calls: &[(u64, u8)],
) -> Result<bool, NoMemory> {
    Ok(calls_told(alloc, finished)?.as_slice() == calls)
}

/// Whether so many requests were accepted, each of them was called once, and none was lost.
pub fn has_called_each(
    alloc: Global,
    finished: &Finished,
    accepted: u64,
) -> Result<bool, NoMemory> {
    let called = called_once(alloc, finished)? == (accepted, accepted);
    Ok(called && finished.accepted == accepted && finished.lost == 0)
}

/// How many of the accepted requests were called once, and how many calls there were.
fn called_once(alloc: Global, finished: &Finished) -> Result<(u64, u64), NoMemory> {
    let mut counts = Vec::from_elem(alloc, 0u8, finished.accepted.wrapping_add(1) as usize)?;
    let mut all: u64 = 0;
    for answer in finished.calls.iter() {
        all = all.wrapping_add(1);
        if let Some(count) = counts.get_mut(answer.number as usize) {
            *count = count.wrapping_add(1);
        }
    }
    let once = counts.iter().filter(|count| **count == 1).count();
    Ok((once as u64, all))
}
