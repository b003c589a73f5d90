//! Whole runs of areplay over files in memory: the exit status and what is put.

mod attempts;
mod books;
mod ends;
mod replies;
mod requests;
mod servers;
mod spoiling;

use areplay_tool::run;
use chan_types::Bytes;
use net_world::{MemFiles, MemSink};
use std::alloc::Global;
use std::collections::BTreeMap;
use std::test::Fail;

/// A run: its words, the bytes of the file `run.txt`, if there is one, and which reads and puts fail, by their numbers
/// from 0; then its exit status, and what it put.
#[derive(Clone, Copy)]
struct Row<'a> {
    words: &'a [&'a str],
    file: Option<&'a [u8]>,
    fails: (&'a [u64], &'a [u64]),
    status: u8,
    put: &'a str,
}

/// The words that name the file.
const NAMED: &[&str] = &["run.txt"];

/// A run in which no file is there and nothing fails.
const RUN: Row<'static> = Row {
    words: NAMED,
    file: None,
    fails: (&[], &[]),
    status: 0,
    put: "",
};

/// Files in which `run.txt` has these bytes, if it is there, and of which the reads of these numbers fail.
fn files_of(alloc: Global, file: Option<&[u8]>, fails: &[u64]) -> Result<MemFiles, Fail> {
    let mut files = BTreeMap::new(alloc);
    if let Some(bytes) = file {
        let path = String::from_str(alloc, "run.txt")?;
        files.insert(path, Bytes::of(alloc, bytes)?)?;
    }
    Ok(MemFiles::make(files, fails.to_vec(alloc)?))
}

/// Whether a run ends with this status and has put this.
fn ends_so(alloc: Global, row: &Row<'_>) -> Result<bool, Fail> {
    let mut files = files_of(alloc, row.file, row.fails.0)?;
    let mut sink = MemSink::make(row.fails.1.to_vec(alloc)?);
    let status = run(alloc, row.words, &mut files, &mut sink);
    Ok(status == row.status && sink.bytes() == row.put.as_bytes())
}

/// The first of these runs, from 0, that ends otherwise.
fn first_wrong(alloc: Global, rows: &[Row<'_>]) -> Result<Option<usize>, Fail> {
    for (index, row) in rows.iter().enumerate() {
        if !ends_so(alloc, row)? {
            return Ok(Some(index));
        }
    }
    Ok(None)
}
