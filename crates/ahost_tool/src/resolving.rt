//! The part of a run that asks: its requests are brought to their end, and the text is put.

ghost use Rattle.std.specs.Prelude.{◌≡◌, ◌≤◌, All, IfSome, None, length, map};
ghost use Rattle.tool_line.specs.Outside.{outside};
ghost use Rattle.ahost_tool.specs.Promise.{Promise};
ghost use Rattle.ahost_tool.specs.Asked.{asked_of};
ghost use Rattle.owner_session.specs.Returning.{AreBack, numbers_asked};

use crate::outcome::Outcome;
use crate::putting::tell;
use crate::task::Task;
use completion_ticket::Done;
use hosts_file::Hosts;
use net_world::{Sink, World};
use owner_session::{SessionEnd, bring_to_end};
use resolv_options::Options;
use run_end::Ended;
use std::alloc::Global;
use tool_line::Exit;

/// Asks a channel with these options and hosts, and puts its report. A channel that was made is destroyed in every case, so
/// that each callback is called. The bodies come back.
pub(crate) fn resolve<B: Done + Drop, W: World, K: Sink>(
    alloc: Global,
    task: Task<B>,
    options: Options,
    hosts: Hosts,
    world: &mut W,
    sink: &mut K,
    turns: u64,
) -> (Ended, Vec<B>)
    requires fresh { All (λ body. B.told body ≡ None) task.requests.bodies.items }
    requires servers { IfSome task.requests.later (λ later. (1 ≤ length later) × (length later ≤ 8)) }
    ensures promise { Promise (asked_of task.report task.requests.specs.items
        (map B.plan task.requests.bodies.items) task.requests.orders task.requests.later)
        (record { options = options; hosts = hosts }) turns result.0
        (outside (W.log world.old) (W.wait_faults world.old) (K.bytes sink.old) (K.faults sink.old) (K.puts sink.old))
        (outside (W.log world.new) (W.wait_faults world.new) (K.bytes sink.new) (K.faults sink.new) (K.puts sink.new)) }
    ensures bodies { AreBack B.name B.told B.refusal (numbers_asked result.0.journal)
        task.requests.bodies.items result.1.items }
    ensures origin { W.origin world.new ≡ W.origin world.old }
{
    let Task { requests, report } = task;
    match bring_to_end(alloc, requests, options, hosts, world, turns) {
        Ok(ended) => {
            let SessionEnd {
                options,
                end,
                journal,
                calls,
                bodies,
            } = ended;
            let outcome = Outcome {
                options,
                journal,
                calls,
            };
            (tell(alloc, report, outcome, end, sink), bodies)
        }
        Err(bodies) => (Ended::early(alloc, Exit::OutOfMemory.number()), bodies),
    }
}
