//! A pool of identifiers.

mod calls;

use crate::words::Words;
use calls::{fill, run};
use id_pool::IdPool;
use std::alloc::Global;
use std::io;

// How many identifiers are in use, how many steps to take, and which call each makes: 0 none, 1 first_free, 2 is_used,
// 3 a take and a give_back. With no word it takes a few of each.
pub fn measure(alloc: Global, words: &Words) -> io::Result<String> {
    let used = words.number(0).unwrap_or(100);
    let steps = words.number(1).unwrap_or(1_000);
    let call = words.number(2).unwrap_or(1);
    let mut pool = IdPool::make(alloc)?;
    fill(&mut pool, used);
    let seen = run(&mut pool, steps, call);
    Ok(format!(in alloc; "{} identifiers in use, {seen} seen", pool.count())?)
}
