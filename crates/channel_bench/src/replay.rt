//! A stored run of so many requests, which is checked, put and read.

mod journal;

use crate::failed::Failed;
use crate::words::{number_of, task_of};
use item_list::Bytes;
use journal::run_of;
use journal_replay::{Checked, check};
use journal_text::{Book, print_book, read_book};
use std::alloc::Global;

/// How many entries a run has.
fn entries_of(run: &Book) -> usize {
    run.journal.entries().len()
}

/// The same of a run that is checked, where it is lawful.
fn checked(alloc: Global, run: &Book) -> Result<usize, Failed> {
    let journal = run.journal.entries();
    match check(alloc, &run.options, b"", journal)? {
        Checked::Lawful => Ok(journal.len()),
        Checked::Unlawful(_) => Err(Failed),
    }
}

/// The same of a run that is put as text.
fn put(alloc: Global, run: &Book) -> Result<usize, Failed> {
    let _text = print_book(alloc, run)?;
    Ok(entries_of(run))
}

/// The same of a run of so many requests that is made, and checked or put where the task says so.
fn made(alloc: Global, task: &str, requests: u64) -> Result<usize, Failed> {
    let run = run_of(alloc, requests)?;
    match task {
        "check" => checked(alloc, &run),
        "put" => put(alloc, &run),
        _ => Ok(entries_of(&run)),
    }
}

/// The text of a run of so many requests.
fn text_of(alloc: Global, requests: u64) -> Result<Bytes, Failed> {
    Ok(print_book(alloc, &run_of(alloc, requests)?)?)
}

/// How many entries the run has that a text says.
fn entries_in(alloc: Global, text: &[u8]) -> Result<usize, Failed> {
    match read_book(alloc, text) {
        Ok(run) => Ok(entries_of(&run)),
        Err(_) => Err(Failed),
    }
}

/// Does the task of this name.
fn perform(alloc: Global, task: &str, requests: u64) -> Result<usize, Failed> {
    match task {
        "read" => entries_in(alloc, text_of(alloc, requests)?.as_slice()),
        _ => made(alloc, task, requests),
    }
}

// With a task and how many requests as its words it does that, and else checks and reads a run of two.
pub fn measure(alloc: Global, words: &[String]) -> Result<String, Failed> {
    let task = task_of(words);
    let Some(requests) = number_of(words, 1) else {
        let checked = perform(alloc, "check", 2)?;
        let read = perform(alloc, "read", 2)?;
        return Ok(format!(in alloc; "{checked} entries checked, {read} read")?);
    };
    let entries = perform(alloc, task, requests)?;
    Ok(format!(in alloc; "{task} {entries}")?)
}
