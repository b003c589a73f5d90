//! Queries and their replies through a network with cookies, and without.

mod exchange;
mod near;

use crate::words::Words;
use exchange::{Counts, bare, with_cookies};
use item_list::NoMemory;
use std::alloc::Global;
use std::io;

/// Does this task, and answers how many replies came.
fn came_of(alloc: Global, task: &str, counts: Counts) -> Result<u64, NoMemory> {
    match task {
        "bare" => bare(alloc, counts),
        _ => with_cookies(alloc, counts),
    }
}

// A task, a number of queries and a number of identifiers.
pub fn measure(alloc: Global, words: &Words) -> io::Result<String> {
    let counts = Counts {
        queries: u64::from(words.number(1).unwrap_or(1000)),
        ids: u64::from(words.number(2).unwrap_or(16)),
    };
    match came_of(alloc, words.task(), counts) {
        Ok(came) => Ok(format!(in alloc; "{came} replies came")?),
        Err(NoMemory) => Ok(String::new(alloc)),
    }
}
