//! A run of a load.

ghost use Rattle.std.specs.Prelude.{◌≡◌, All, None};

use crate::bodies::{Working, bodies_for};
use crate::working::Work;
use ahost_tool::run;
use ahost_workers::run_with_workers;
use item_list::NoMemory;
use net_world::{MemFiles, MemSink, ScriptWorld};
use std::alloc::Global;
use std::collections::BTreeMap;
use std::sync::Wait;
use std::thread::Threads;

/// How many turns a run may make.
const TURNS: u64 = 10_000_000;

/// How many workers a run has, how many names it asks for, and how many steps each callback makes.
#[derive(Clone, Copy)]
pub struct Run {
    pub workers: u64,
    pub names: u64,
    pub steps: u64,
}

/// Makes a run, and answers its summary.
pub fn play<R: Threads + Wait + Sync>(
    rt: &R,
    alloc: Global,
    run: &Run,
    work: Work<'_>,
) -> Result<String, NoMemory> {
    let line = format!(in alloc; "--load {} --seed 7 --workers {}", run.names, run.workers)?;
    let mut words = Vec::new(alloc);
    for word in line.split(' ') {
        words.push(word)?;
    }
    let bodies = bodies_for(alloc, run.names, work)?;
    let put = played(rt, alloc, words.as_slice(), run.workers, bodies)?;
    Ok(String::from_utf8(put).unwrap_or(String::new(alloc)))
}

/// What a run with these words and bodies puts. No file is read: there is none; and the network is the load's own.
fn played<R: Threads + Wait + Sync>(
    rt: &R,
    alloc: Global,
    words: &[&str],
    workers: u64,
    bodies: Vec<Working<'_>>,
) -> Result<Vec<u8>, NoMemory>
    requires fresh { All (λ body. body.inner.told ≡ None) bodies.items }
{
    let mut files = MemFiles::make(BTreeMap::new(alloc), Vec::new(alloc));
    let mut sink = MemSink::make(Vec::new(alloc));
    let mut world = ScriptWorld::make(Vec::new(alloc), Vec::new(alloc), Vec::new(alloc));
    if workers == 0 {
        let _ended = run(
            alloc, words, bodies, &mut files, &mut world, &mut sink, TURNS,
        );
    } else {
        let _ended = run_with_workers(
            alloc, rt, words, bodies, &mut files, world, &mut sink, TURNS,
        );
    }
    Ok(sink.bytes().to_vec(alloc)?)
}
