//! The summary of a load: how many of its requests were accepted, called, good and bad, started, and out of time.

ghost use Rattle.std.specs.Prelude.{◌≡◌, ◌+◌, ◌++◌, IfOk, OnOk, cond, count_by};
ghost use Rattle.ahost_tool.specs.Summary.{AreCountsOf, counts_with, is_accept, is_start};
ghost use Rattle.ahost_tool.specs.Summary.{count_line, load_line, numbered, summary_of};
ghost use Rattle.channel_model.specs.Turn.{is_expire};

use chan_types::{Answer, Calls, Entry, What};
use item_list::{Bytes, NoMemory};
use std::alloc::Global;
use tool_line::Load;

/// The summary of a load with these entries and answers.
pub(crate) fn summary_of(
    alloc: Global,
    load: Load,
    entries: &[Entry],
    calls: &Calls,
) -> Result<Bytes, NoMemory>
    ensures { IfOk result (λ text. text ≡ summary_of load entries.now calls.now) }
{
    let counts = count_answers(calls)?;
    let mut text = Vec::new(alloc);
    put_load(&mut text, load)?;
    put_line(&mut text, "accepted", count_accepts(entries) as u64)?;
    put_line(&mut text, "called", counts.called)?;
    put_line(&mut text, "good", counts.good)?;
    put_line(&mut text, "bad", counts.bad)?;
    put_line(&mut text, "starts", count_starts(entries) as u64)?;
    put_line(&mut text, "expires", count_expires(entries) as u64)?;
    Ok(Bytes::from_vec(text))
}

/// Prints the line of what is asked.
fn put_load(text: &mut Vec<u8>, load: Load) -> Result<(), NoMemory>
    ensures { OnOk result (text.new.items ≡ text.old.items ++ load_line load) }
{
    put_numbered(text, "load", u64::from(load.names))?;
    put_numbered(text, " seed", u64::from(load.seed))?;
    text.push(b'\n')?;
    Ok(())
}

/// Prints the line of a count.
fn put_line(text: &mut Vec<u8>, word: &str, count: u64) -> Result<(), NoMemory>
    ensures { OnOk result (text.new.items ≡ text.old.items ++ count_line word.now count) }
{
    put_numbered(text, word, count)?;
    text.push(b'\n')?;
    Ok(())
}

/// Prints a word, and a number behind a blank.
fn put_numbered(text: &mut Vec<u8>, word: &str, count: u64) -> Result<(), NoMemory>
    ensures { OnOk result (text.new.items ≡ text.old.items ++ numbered word.now count) }
{
    let mut buffer = itoa::Buffer::new();
    text.extend_from_slice(word.as_bytes())?;
    text.push(b' ')?;
    text.extend_from_slice(buffer.format(count).as_bytes())?;
    Ok(())
}

/// How many callbacks were called, and how many of them with a good answer and with another.
#[derive(Clone, Copy)]
struct Counts {
    called: u64,
    good: u64,
    bad: u64,
}

/// Counts the answers.
fn count_answers(calls: &Calls) -> Result<Counts, NoMemory>
    ensures { IfOk result (AreCountsOf calls.now) }
{
    let mut counts = Counts {
        called: 0,
        good: 0,
        bad: 0,
    };
    for answer in calls.iter() {
        counts = count_one(counts, answer)?;
    }
    Ok(counts)
}

/// Counts one answer more.
fn count_one(counts: Counts, answer: &Answer) -> Result<Counts, NoMemory>
    ensures { IfOk result (λ more. more ≡ counts_with counts answer.now) }
{
    let good = answer.status.code() == 0;
    Ok(Counts {
        called: count_if(counts.called, true)?,
        good: count_if(counts.good, good)?,
        bad: count_if(counts.bad, !good)?,
    })
}

/// One more where this is so. There is no memory for more answers than 64 bits count.
fn count_if(count: u64, is_so: bool) -> Result<u64, NoMemory>
    ensures { IfOk result (λ more. more ≡ count + cond is_so 1 0) }
{
    if !is_so {
        return Ok(count);
    }
    match count.checked_add(1) {
        Some(more) => Ok(more),
        None => Err(NoMemory),
    }
}

/// How many of these entries accept a request.
fn count_accepts(entries: &[Entry]) -> usize
    ensures { result ≡ count_by (λ entry. is_accept entry.what) entries.now }
{
    entries
        .iter()
        .filter(|entry| matches!(entry.what, What::Accept { .. }))
        .count()
}

/// How many of them begin a query.
fn count_starts(entries: &[Entry]) -> usize
    ensures { result ≡ count_by (λ entry. is_start entry.what) entries.now }
{
    entries
        .iter()
        .filter(|entry| matches!(entry.what, What::Start { .. }))
        .count()
}

/// In how many of them a deadline passed.
fn count_expires(entries: &[Entry]) -> usize
    ensures { result ≡ count_by (λ entry. is_expire entry.what) entries.now }
{
    entries
        .iter()
        .filter(|entry| matches!(entry.what, What::Expire { .. }))
        .count()
}
