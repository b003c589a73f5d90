//! The run, with workers or without.

ghost use Rattle.std.specs.Prelude.{◌≡◌, All, None};

use crate::counting::want_workers;
use ahost_tool::{Ended, run};
use ahost_workers::run_with_workers;
use completion_ticket::Scripted;
use item_list::NoMemory;
use sock_engine::{RealFiles, RealSink, SockWorld};
use std::sync::Wait;
use std::thread::Threads;

/// How many turns a run may make.
const TURNS: u64 = 10_000_000;

/// Runs with these words and bodies over this network, which comes back.
pub fn played<R: Threads + Wait + Sync>(
    threads: &R,
    rt: HostRuntime,
    words: &[&str],
    bodies: Vec<Scripted>,
    world: SockWorld<HostRuntime>,
) -> Result<(Ended, SockWorld<HostRuntime>), NoMemory>
    requires fresh { All (λ body. body.told ≡ None) bodies.items }
{
    let alloc = rt.alloc();
    let mut files = RealFiles::make(rt);
    let mut sink = RealSink::make(rt);
    if want_workers(alloc, words)? {
        return Ok(run_with_workers(
            alloc, threads, words, bodies, &mut files, world, &mut sink, TURNS,
        ));
    }
    let mut world = world;
    let ended = run(
        alloc, words, bodies, &mut files, &mut world, &mut sink, TURNS,
    );
    Ok((ended, world))
}
