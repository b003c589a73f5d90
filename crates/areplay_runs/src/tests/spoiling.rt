//! Lawful runs and lines that spoil them, as texts.

use super::{NAMED, files_of};
use areplay_tool::run;
use net_world::MemSink;
use std::alloc::Global;
use std::test::Fail;

/// A lawful run: the lines before its entries, its entries, and what areplay puts of it. Then how it is spoiled: by a line
/// in the place of the entry at a position, or behind the last one.
pub struct Spoiling<'a> {
    pub head: &'a str,
    pub entries: &'a [&'a str],
    pub page: &'a str,
    pub spoiled: &'a [(usize, &'a str)],
}

/// One server, 192.0.2.53.
pub const ONE: &str = "journal 1
option 2000 3 1 0 00000010 0 0 1232
server 192.0.2.53 53
hosts -
";

/// Two servers.
pub const TWO: &str = "journal 1
option 2000 3 1 0 00000010 0 0 1232
server 192.0.2.53 53
server 192.0.2.54 53
hosts -
";

/// The text of a run with this head and these entries.
fn text_of(alloc: Global, head: &str, entries: &[&str]) -> Result<String, Fail> {
    let mut text = String::from_str(alloc, head)?;
    for entry in entries {
        text.push_str(entry)?;
        text.push_str("\n")?;
    }
    text.push_str("end\n")?;
    Ok(text)
}

/// Whether areplay of this text ends with this status and puts this.
fn ends_with(alloc: Global, text: &str, status: u8, put: &str) -> Result<bool, Fail> {
    let mut files = files_of(alloc, Some(text.as_bytes()), &[])?;
    let mut sink = MemSink::make(Vec::new(alloc));
    let ended = run(alloc, NAMED, &mut files, &mut sink);
    Ok(ended == status && sink.bytes() == put.as_bytes())
}

/// Whether areplay finds the run of these entries lawful, and puts this page.
fn is_lawful(alloc: Global, head: &str, entries: &[&str], page: &str) -> Result<bool, Fail> {
    let text = text_of(alloc, head, entries)?;
    ends_with(alloc, text.as_str(), 0, page)
}

/// Whether areplay finds that the entry at this position is the first that isn't allowed.
fn is_refused_at(
    alloc: Global,
    head: &str,
    entries: &[&str],
    position: usize,
) -> Result<bool, Fail> {
    let text = text_of(alloc, head, entries)?;
    let put = format!(in alloc; "unlawful {position}\n")?;
    ends_with(alloc, text.as_str(), 1, put.as_str())
}

/// The entries with this line in the place of that at a position, or behind the last one.
fn spoiled_at<'a>(
    alloc: Global,
    entries: &[&'a str],
    position: usize,
    line: &'a str,
) -> Result<Vec<&'a str>, Fail> {
    let mut spoiled = entries.to_vec(alloc)?;
    if position < spoiled.len() {
        spoiled[position] = line;
    } else {
        spoiled.push(line)?;
    }
    Ok(spoiled)
}

/// Whether the run is lawful, and each spoiled one refused where it is spoiled.
fn is_spoiled_so(alloc: Global, run: &Spoiling<'_>) -> Result<bool, Fail> {
    for (position, line) in run.spoiled {
        let entries = spoiled_at(alloc, run.entries, *position, line)?;
        if !is_refused_at(alloc, run.head, entries.as_slice(), *position)? {
            return Ok(false);
        }
    }
    is_lawful(alloc, run.head, run.entries, run.page)
}

/// The first of these runs, from 0, of which that isn't so.
pub fn first_other(alloc: Global, runs: &[Spoiling<'_>]) -> Result<Option<usize>, Fail> {
    for (index, run) in runs.iter().enumerate() {
        if !is_spoiled_so(alloc, run)? {
            return Ok(Some(index));
        }
    }
    Ok(None)
}
