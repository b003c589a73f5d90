//! Runs of a load with workers, over the network that they make.

ghost use Rattle.std.specs.Prelude.{◌≡◌, All, IfOk, None};

use super::WORKERS;
use super::bodies::blank_bodies;
use super::playing::{Played, RUN, ended, files_of, line_with, network_of};
use ahost_workers::run_boxed_with_workers;
use chan_types::Script;
use completion_ticket::{Done, Scripted};
use net_world::MemSink;
use scenario::{is_called_once, words_of};
use std::alloc::Global;
use std::sync::Wait;
use std::test::*;
use std::thread::Threads;

/// The summary of twelve names: every fourth isn't there, and one first query in three is lost.
pub const TWELVE: &str = "load 12 seed 0
accepted 12
called 12
good 9
bad 3
starts 16
expires 4
";

/// The summary of the greatest load: 3,072 names are there, and the plan of seed 7 loses 1,365 first queries.
const FULL: &str = "load 4096 seed 7
accepted 4096
called 4096
good 3072
bad 1024
starts 5461
expires 1365
";

/// The summary of two names: both are there, and the first query for the first of them is lost.
const TWO: &str = "load 2 seed 0
accepted 2
called 2
good 2
bad 0
starts 3
expires 1
";

/// What a load leaves with so many workers, and with so many bodies that command nothing. A read of a file would be refused:
/// there is none.
pub fn loaded<R: Threads + Wait + Sync>(
    rt: &R,
    alloc: Global,
    line: &str,
    workers: u64,
    count: u64,
) -> Result<Played, Fail> {
    let line = line_with(alloc, "", workers, line)?;
    let words = words_of(alloc, line.as_str())?;
    let bodies = blank_bodies(alloc, count)?;
    let world = network_of(alloc, &RUN)?;
    ended(rt, alloc, words.as_slice(), &RUN, bodies, world)
}

/// Two boxed bodies that command nothing.
fn two_boxes(alloc: Global) -> Result<Vec<Box<dyn Done + Send + Drop>>, Fail>
    ensures { IfOk result (λ boxes. All (λ body. told body ≡ None) boxes.items) }
{
    let mut boxes: Vec<Box<dyn Done + Send + Drop>> = Vec::new(alloc);
    boxes.push(Box::new(alloc, Scripted::new(Script::blank(alloc, 0)))?)?;
    boxes.push(Box::new(alloc, Scripted::new(Script::blank(alloc, 1)))?)?;
    Ok(boxes)
}

/// What a load of two names leaves with boxed bodies. No other function calls `run_boxed_with_workers`.
fn loaded_boxed<R: Threads + Wait + Sync>(
    rt: &R,
    alloc: Global,
    workers: u64,
) -> Result<Played, Fail> {
    let line = line_with(alloc, "", workers, "--load 2")?;
    let words = words_of(alloc, line.as_str())?;
    let mut files = files_of(alloc, &RUN)?;
    let mut sink = MemSink::make(Vec::new(alloc));
    let boxes = two_boxes(alloc)?;
    let world = network_of(alloc, &RUN)?;
    let turns = RUN.turns;
    let (ended, _world) = run_boxed_with_workers(
        alloc,
        rt,
        words.as_slice(),
        boxes,
        &mut files,
        world,
        &mut sink,
        turns,
    );
    Ok(Played {
        status: ended.status,
        put: sink.bytes().to_vec(alloc)?,
        called: is_called_once(ended.journal.entries(), &ended.calls),
    })
}

#[test]
fn twelve_names_are_asked(rt: HostRuntime) -> Result<(), Fail> {
    for workers in WORKERS {
        assert!(rt; loaded(&rt, rt.alloc(), "--load 12", workers, 12)?.is(1, TWELVE));
    }
    Ok(())
}

#[test]
fn a_full_load_is_asked(rt: HostRuntime) -> Result<(), Fail> {
    assert!(rt; loaded(&rt, rt.alloc(), "--load 4096 --seed 7", 2, 4096)?.is(1, FULL));
    Ok(())
}

#[test]
fn boxed_bodies_are_called(rt: HostRuntime) -> Result<(), Fail> {
    for workers in WORKERS {
        assert!(rt; loaded_boxed(&rt, rt.alloc(), workers)?.is(0, TWO));
    }
    Ok(())
}
