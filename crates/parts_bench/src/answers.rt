//! A cache of answers.

ghost use Rattle.std.specs.Prelude.{◌≤◌};

mod filling;
mod looks;

use crate::words::Words;
use dns_message::NoMemory;
use filling::{fill, questions};
use looks::look_often;
use query_cache::QueryCache;
use std::alloc::Global;
use std::io;

/// The domain of the names that a task looks for: those that are kept, or others.
fn domain_of(task: &str) -> &'static [u8] {
    if task == "miss" { b"net" } else { b"com" }
}

// A task, a number of answers and a number of looks.
pub fn measure(alloc: Global, words: &Words) -> io::Result<String> {
    let entries = words.number(1).unwrap_or(100).clamp(1, 65_536);
    let looks = words.number(2).unwrap_or(1000);
    match given(alloc, domain_of(words.task()), entries, looks) {
        Ok((kept, given)) => Ok(format!(in alloc;
            "{kept} answers kept, {looks} looks, {given} answers given"
        )?),
        Err(NoMemory) => Ok(String::new(alloc)),
    }
}

/// Keeps so many answers, looks so many times for names in the domain, and answers how many were kept and given.
fn given(alloc: Global, domain: &[u8], entries: u32, looks: u32) -> Result<(u32, u32), NoMemory>
    requires { (1 ≤ entries) × (entries ≤ 65536) }
{
    let mut cache = QueryCache::make(alloc, u64::from(entries), 86_400)?;
    let kept = fill(alloc, &mut cache, entries)?;
    let asked = questions(alloc, domain, entries)?;
    Ok((kept, look_often(&mut cache, asked.as_slice(), looks)))
}
