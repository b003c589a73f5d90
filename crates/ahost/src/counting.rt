//! How many names a command line can ask for, and whether it wants workers.

ghost use Rattle.std.specs.Prelude.{◌≤◌, IfOk};

use item_list::NoMemory;
use std::alloc::Global;
use tool_line::{WordFault, ahost_ask};

/// The most names of a run (this project's profile).
const NAMES_MOST: usize = 4_096;

/// The option of a load.
const LOAD: &str = "--load";

/// The option of workers.
const WORKERS: &str = "--workers";

/// As many names as these words ask for, or more, up to the most of a run. Each name is a word of its own. A load asks for
/// as many as its option says, which is read as the run reads it, and no names stand beside it.
pub fn names_most(alloc: Global, words: &[&str]) -> Result<usize, NoMemory>
    ensures { IfOk result (λ most. most ≤ 4096) }
{
    let most = if words.iter().any(|word| word.starts_with(LOAD)) {
        names_asked(alloc, words)?
    } else {
        words.len()
    };
    Ok(most.min(NAMES_MOST))
}

/// Whether these words want workers, as the run reads them.
pub fn want_workers(alloc: Global, words: &[&str]) -> Result<bool, NoMemory> {
    if !words.iter().any(|word| word.starts_with(WORKERS)) {
        return Ok(false);
    }
    match ahost_ask(alloc, words) {
        Ok(asked) => Ok(asked.workers != 0),
        Err(WordFault::Refused) => Ok(false),
        Err(WordFault::NoMemory) => Err(NoMemory),
    }
}

/// How many names the words ask for. Words that ask nothing ask for none.
fn names_asked(alloc: Global, words: &[&str]) -> Result<usize, NoMemory> {
    match ahost_ask(alloc, words) {
        Ok(asked) => Ok(match asked.load {
            Some(load) => load.names as usize,
            None => asked.specs.len(),
        }),
        Err(WordFault::Refused) => Ok(0),
        Err(WordFault::NoMemory) => Err(NoMemory),
    }
}
