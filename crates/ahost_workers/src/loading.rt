//! A run of a load with workers: it asks for so many names over a network in memory of its own, and puts a summary.

ghost use Rattle.std.specs.Prelude.{◌≡◌, ◌<◌, ◌≤◌, All, None, map};
ghost use Rattle.ahost_tool.specs.Loading.{IsWithinLimits};
ghost use Rattle.ahost_workers.specs.Loading.{IsLoadRunWith};

use crate::resolving::resolve_with;
use crate::work::Work;
use ahost_tool::{Report, prepare};
use chan_types::Orders;
use completion_ticket::Done;
use hosts_file::Hosts;
use net_world::Sink;
use run_end::Ended;
use std::alloc::Global;
use std::sync::Wait;
use std::thread::Threads;
use tool_line::{Exit, Load};

/// Asks for the names of a load, with so many workers, and puts its summary: at most `turns` turns over a network that is made
/// for it.
pub(crate) fn load_with<B: Done + Drop + Send, R: Threads + Wait + Sync, K: Sink>(
    alloc: Global,
    rt: &R,
    load: Load,
    workers: u64,
    bodies: Vec<B>,
    sink: &mut K,
    turns: u64,
) -> Ended
    requires fresh { All (λ body. B.told body ≡ None) bodies.items }
    requires workers { (0 < workers) × (workers ≤ 16) }
    requires limits { IsWithinLimits load }
    ensures { IsLoadRunWith workers load (map B.plan bodies.items) turns result
        (record { bytes = K.bytes sink.old; faults = K.faults sink.old; puts = K.puts sink.old })
        (record { bytes = K.bytes sink.new; faults = K.faults sink.new; puts = K.puts sink.new }) }
{
    let Ok((options, specs, world)) = prepare(alloc, load) else {
        return Ended::early(alloc, Exit::OutOfMemory.number());
    };
    let work = Work {
        specs,
        bodies,
        orders: Orders {
            follow: false,
            first: false,
            quit: false,
        },
        later: None,
        report: Report::Summary(load),
        workers,
        turns,
    };
    let (ended, world) = resolve_with(alloc, rt, work, options, Hosts::empty(alloc), world, sink);
    // What the network has told is a log of its zone and its seed: this is said by `log`.
    let _ = world.log();
    ended
}
