//! The part of a run that knows what is asked: it reads the files, and asks.

ghost use Rattle.std.specs.Prelude.{◌≡◌, ◌≤◌, All, IfSome, List, None, Option, length, map, ℕ};
ghost use Rattle.net_world.specs.declared.log.WorldCall.{WorldCall};
ghost use Rattle.tool_line.specs.Outside.{files_told, outside};
ghost use Rattle.owner_session.specs.Returning.{AreBack, numbers_asked};
ghost use Rattle.ahost_tool.specs.Running.{EndsEarly, IsRunFor};

use crate::putting::put_line;
use crate::reporting::report_for;
use crate::resolving::resolve;
use crate::setting::read_setting;
use crate::task::Task;
use completion_ticket::Done;
use net_world::{Files, Sink, World};
use owner_session::Requests;
use run_end::Ended;
use std::alloc::Global;
use tool_line::{AhostAsk, Exit, FileFault};

/// Reads resolv.conf and the hosts file, asks with what they and the words set, and puts the page or the book of the run. The
/// bodies come back.
pub(crate) fn ask<B: Done + Drop, W: World, F: Files, K: Sink>(
    alloc: Global,
    asked: AhostAsk,
    bodies: Vec<B>,
    files: &mut F,
    world: &mut W,
    sink: &mut K,
    turns: u64,
) -> (Ended, Vec<B>)
    requires fresh { All (λ body. B.told body ≡ None) bodies.items }
    requires servers { IfSome asked.later (λ later. (1 ≤ length later) × (length later ≤ 8)) }
    ensures promise { IsRunFor asked (map B.plan bodies.items) turns result.0
        (files_told (F.files files.old) (F.faults files.old) (F.reads files.old))
        (files_told (F.files files.new) (F.faults files.new) (F.reads files.new))
        (outside (W.log world.old) (W.wait_faults world.old) (K.bytes sink.old) (K.faults sink.old) (K.puts sink.old))
        (outside (W.log world.new) (W.wait_faults world.new) (K.bytes sink.new) (K.faults sink.new) (K.puts sink.new)) }
    ensures bodies { AreBack B.name B.told B.refusal (numbers_asked result.0.journal) bodies.items result.1.items }
    ensures files { F.files files.new ≡ F.files files.old }
    ensures origin { W.origin world.new ≡ W.origin world.old }
{
    let AhostAsk {
        resolv,
        hosts,
        settings,
        specs,
        orders,
        workers: _,
        load: _,
        later,
        journal,
    } = asked;
    match read_setting(alloc, resolv.as_str(), hosts.as_str(), settings, files) {
        Ok((options, hosts, bytes)) => {
            let requests = Requests {
                specs: specs.into_vec(),
                bodies,
                orders,
                later,
            };
            let task = Task {
                requests,
                report: report_for(journal, bytes),
            };
            resolve(alloc, task, options, hosts, world, sink, turns)
        }
        Err(FileFault::Failed) => (leave(alloc, sink, Exit::FileFault), bodies),
        Err(FileFault::TooLarge) => (leave(alloc, sink, Exit::FileFault), bodies),
        Err(FileFault::NoMemory) => {
            let ended = Ended::early(alloc, Exit::OutOfMemory.number());
            (ended, bodies)
        }
    }
}

/// Ends a run before it has a channel: the line of this end is put. An end that has no line, as that of a page, puts nothing,
/// with status 5.
pub fn leave<K: Sink>(alloc: Global, sink: &mut K, end: Exit) -> Ended
    ensures { (log : Option (List WorldCall)) (wait_faults : ℕ) → EndsEarly end result
        (outside log wait_faults (K.bytes sink.old) (K.faults sink.old) (K.puts sink.old))
        (outside log wait_faults (K.bytes sink.new) (K.faults sink.new) (K.puts sink.new)) }
{
    let status = put_line(sink, end);
    Ended::early(alloc, status)
}
