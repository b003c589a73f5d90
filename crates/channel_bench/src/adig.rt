//! Whole runs of `adig` of as many turns as are wanted, and the network's calls of such a run alone.

mod noise;

use crate::failed::Failed;
use crate::words::{number_of, task_of};
use noise::ended;
use std::alloc::Global;

// With a task and how many turns as its words it does that, and else a run of 100 turns.
pub fn measure(alloc: Global, words: &[String]) -> Result<String, Failed> {
    let task = task_of(words);
    let Some(turns) = number_of(words, 1) else {
        let (status, calls) = ended(alloc, "run", 100)?;
        return Ok(format!(in alloc;
            "a run of 100 turns: status {status}, {calls} calls of the network"
        )?);
    };
    let (status, calls) = ended(alloc, task, turns)?;
    Ok(format!(in alloc; "{task} {turns}: status {status}, {calls} calls of the network")?)
}
