//! The attempts of a journal, and the calls of callbacks, of files and of an output as lines of text.

use chan_types::{Calls, Entry, What};
use net_world::{FileRead, PutCall, PutEnd, ReadCall};
use std::alloc::Global;
use std::test::Fail;

/// The lines of the answers that callbacks were called with: the number of each, and its status by code.
pub fn answers_told(alloc: Global, calls: &Calls) -> Result<String, Fail> {
    let mut text = String::new(alloc);
    for answer in calls.iter() {
        let number = answer.number;
        let code = answer.status.code();
        text.push_str(format!(in alloc; "{number} status {code}\n")?.as_str())?;
    }
    Ok(text)
}

/// Whether each request that the journal accepts was called once, and nothing else was called.
pub fn is_called_once(entries: &[Entry], calls: &Calls) -> bool {
    let mut accepted: u64 = 0;
    for entry in entries {
        if let What::Accept { number, .. } = &entry.what {
            if calls_of(calls, *number) != 1 {
                return false;
            }
            accepted = accepted.saturating_add(1);
        }
    }
    accepted == count_of(calls)
}

/// How many callbacks were called.
fn count_of(calls: &Calls) -> u64 {
    let mut count: u64 = 0;
    for _ in calls.iter() {
        count = count.saturating_add(1);
    }
    count
}

/// How often the request was called.
fn calls_of(calls: &Calls, number: u64) -> u64 {
    let mut count: u64 = 0;
    for answer in calls.iter() {
        if answer.number == number {
            count = count.saturating_add(1);
        }
    }
    count
}

/// The lines of the attempts that a journal notes: which request's, by which identifier, when, and which of them expired.
pub fn attempts_told(alloc: Global, entries: &[Entry]) -> Result<String, Fail> {
    let mut text = String::new(alloc);
    for entry in entries {
        text.push_str(attempt_told(alloc, &entry.what)?.as_str())?;
    }
    Ok(text)
}

/// The line of an entry, if it begins an attempt, or ends one by its deadline.
fn attempt_told(alloc: Global, what: &What) -> Result<String, Fail> {
    Ok(match what {
        What::Start {
            number,
            id,
            moment,
            ..
        } => format!(in alloc; "start {number} by {id} at {moment}\n")?,
        What::Expire { number, moment, .. } => format!(in alloc; "expire {number} at {moment}\n")?,
        _ => String::new(alloc),
    })
}

/// The lines of reads: the path of each, how many bytes were asked for at most, and what was answered.
pub fn reads_told(alloc: Global, reads: &[ReadCall]) -> Result<Vec<u8>, Fail> {
    let mut text = Vec::new(alloc);
    for read in reads {
        add_read(alloc, &mut text, read)?;
    }
    Ok(text)
}

/// Adds the line of a read.
fn add_read(alloc: Global, text: &mut Vec<u8>, read: &ReadCall) -> Result<(), Fail> {
    let most = read.most;
    text.extend_from_slice(read.path.as_slice())?;
    text.extend_from_slice(format!(in alloc; " {most} ")?.as_bytes())?;
    text.extend_from_slice(read_told(alloc, &read.read)?.as_bytes())?;
    text.push(b'\n')?;
    Ok(())
}

/// What a read answered.
fn read_told(alloc: Global, read: &FileRead) -> Result<String, Fail> {
    Ok(match read {
        FileRead::Content(bytes) => {
            let len = bytes.len();
            format!(in alloc; "{len} bytes")?
        }
        FileRead::Absent => String::from_str(alloc, "absent")?,
        FileRead::Large => String::from_str(alloc, "large")?,
        FileRead::Failed => String::from_str(alloc, "failed")?,
    })
}

/// Puts one behind the other: how each ended, and its text.
pub fn puts_told(alloc: Global, puts: &[PutCall]) -> Result<Vec<u8>, Fail> {
    let mut text = Vec::new(alloc);
    for put in puts {
        text.extend_from_slice(end_told(put.end).as_bytes())?;
        text.extend_from_slice(put.text.as_slice())?;
    }
    Ok(text)
}

/// How a put ended.
fn end_told(end: PutEnd) -> &'static str {
    match end {
        PutEnd::Done => "done ",
        PutEnd::Failed => "failed ",
    }
}
