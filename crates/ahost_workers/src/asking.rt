//! The part of a run that knows what is asked: it reads the files, and asks.

ghost use Rattle.std.specs.Prelude.{◌≡◌, ◌<◌, ◌≤◌, All, IfSome, None, length, map};
ghost use Rattle.tool_line.specs.Outside.{files_told, outside};
ghost use Rattle.ahost_workers.specs.Running.{IsRunWith};

use crate::resolving::resolve_with;
use crate::work::Work;
use ahost_tool::{leave, read_setting, report_for};
use completion_ticket::Done;
use net_world::{Files, Sink, World};
use run_end::Ended;
use std::alloc::Global;
use std::sync::Wait;
use std::thread::Threads;
use tool_line::{AhostAsk, Exit, FileFault};

/// Reads resolv.conf and the hosts file, asks with what they and the words set, and puts the page or the book of the run. The
/// network comes back.
pub(crate) fn ask_with<
    B: Done + Drop + Send,
    R: Threads + Wait + Sync,
    W: World + Drop + Send,
    F: Files,
    K: Sink,
>(
    alloc: Global,
    rt: &R,
    asked: AhostAsk,
    bodies: Vec<B>,
    files: &mut F,
    world: W,
    sink: &mut K,
    turns: u64,
) -> (Ended, W)
    requires fresh { All (λ body. B.told body ≡ None) bodies.items }
    requires workers { (0 < asked.workers) × (asked.workers ≤ 16) }
    requires servers { IfSome asked.later (λ later. (1 ≤ length later) × (length later ≤ 8)) }
    ensures promise { IsRunWith asked (map B.plan bodies.items) turns result.0
        (files_told (F.files files.old) (F.faults files.old) (F.reads files.old))
        (files_told (F.files files.new) (F.faults files.new) (F.reads files.new))
        (outside (W.log world) (W.wait_faults world) (K.bytes sink.old) (K.faults sink.old) (K.puts sink.old))
        (outside (W.log result.1) (W.wait_faults result.1) (K.bytes sink.new) (K.faults sink.new) (K.puts sink.new)) }
    ensures files { F.files files.new ≡ F.files files.old }
    ensures origin { W.origin result.1 ≡ W.origin world }
{
    let AhostAsk {
        resolv,
        hosts,
        settings,
        specs,
        orders,
        workers,
        load: _,
        later,
        journal,
    } = asked;
    match read_setting(alloc, resolv.as_str(), hosts.as_str(), settings, files) {
        Ok((options, hosts, bytes)) => {
            let work = Work {
                specs,
                bodies,
                orders,
                later,
                report: report_for(journal, bytes),
                workers: u64::from(workers),
                turns,
            };
            resolve_with(alloc, rt, work, options, hosts, world, sink)
        }
        Err(FileFault::Failed) => (leave(alloc, sink, Exit::FileFault), world),
        Err(FileFault::TooLarge) => (leave(alloc, sink, Exit::FileFault), world),
        Err(FileFault::NoMemory) => (Ended::early(alloc, Exit::OutOfMemory.number()), world),
    }
}
