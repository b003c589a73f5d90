//! The part of a run that asks: a session of a channel that workers share, and the text that is put behind it.

ghost use Rattle.std.specs.Prelude.{◌≡◌, ◌<◌, ◌≤◌, All, IfOk, IfSome, None, length, map};
ghost use Rattle.tool_line.specs.Outside.{outside};
ghost use Rattle.ahost_tool.specs.Asked.{asked_of};
ghost use Rattle.ahost_workers.specs.Asked.{requests_of};
ghost use Rattle.ahost_workers.specs.Promise.{PromiseWith};
ghost use Rattle.ahost_workers.specs.Putting.{PutsReport};

use crate::ending::turns_end;
use crate::requests::with_callbacks;
use crate::work::Work;
use ahost_tool::{Outcome, Report, tell};
use chan_types::Spec;
use completion_ticket::{Callback, Done};
use hosts_file::Hosts;
use item_list::NoMemory;
use net_world::{Sink, World};
use owner_session::ending_of;
use resolv_options::Options;
use run_end::Ended;
use shared_channel::Finished;
use shared_session::{Ran, Session, Task, run_shared};
use std::alloc::Global;
use std::sync::Wait;
use std::thread::Threads;
use tool_line::{Exit, SpecList};

/// Asks a channel with these options and hosts, whose callbacks are called by workers, and puts its report. The network comes
/// back. A channel that was made is ended in every case, so that each callback is called.
pub(crate) fn resolve_with<
    B: Done + Drop + Send,
    R: Threads + Wait + Sync,
    W: World + Drop + Send,
    K: Sink,
>(
    alloc: Global,
    rt: &R,
    work: Work<B>,
    options: Options,
    hosts: Hosts,
    world: W,
    sink: &mut K,
) -> (Ended, W)
    requires fresh { All (λ body. B.told body ≡ None) work.bodies.items }
    requires workers { (0 < work.workers) × (work.workers ≤ 16) }
    requires servers { IfSome work.later (λ later. (1 ≤ length later) × (length later ≤ 8)) }
    ensures promise { PromiseWith work.workers (asked_of work.report work.specs (map B.plan work.bodies.items) work.orders work.later)
        (record { options = options; hosts = hosts }) work.turns result.0
        (outside (W.log world) (W.wait_faults world) (K.bytes sink.old) (K.faults sink.old) (K.puts sink.old))
        (outside (W.log result.1) (W.wait_faults result.1) (K.bytes sink.new) (K.faults sink.new) (K.puts sink.new)) }
    ensures origin { W.origin result.1 ≡ W.origin world }
{
    let Work {
        specs,
        bodies,
        orders,
        later,
        report,
        workers,
        turns,
    } = work;
    let Ok((known, requests)) = what_is_asked(alloc, &options, specs, bodies) else {
        return (Ended::early(alloc, Exit::OutOfMemory.number()), world);
    };
    let task = Task {
        requests,
        orders,
        later,
        workers,
        turns,
    };
    let Ran { session, world } = run_shared(alloc, rt, (options, hosts), task, world);
    let Some(session) = session else {
        return (Ended::early(alloc, Exit::OutOfMemory.number()), world);
    };
    (put_report(alloc, known, session, report, sink), world)
}

/// The options once more, and each request with the callback of its body.
fn what_is_asked<B: Done + Drop>(
    alloc: Global,
    options: &Options,
    specs: SpecList,
    bodies: Vec<B>,
) -> Result<(Options, Vec<(Spec, Callback<B>)>), NoMemory>
    requires fresh { All (λ body. B.told body ≡ None) bodies.items }
    ensures { IfOk result (λ asked. (asked.0 ≡ options.now)
        × (asked.1.items ≡ requests_of B.plan B.name specs bodies.items)) }
{
    let known = options.copy(alloc)?;
    let requests = with_callbacks(alloc, specs, bodies)?;
    Ok((known, requests))
}

/// Puts the text of a run whose session came to this, in a channel of these options.
fn put_report<K: Sink>(
    alloc: Global,
    options: Options,
    session: Session,
    report: Report,
    sink: &mut K,
) -> Ended
    ensures { PutsReport options report session.end session.finished.journal.entries.items session.finished.lost
        session.finished.calls result
        (record { bytes = K.bytes sink.old; faults = K.faults sink.old; puts = K.puts sink.old })
        (record { bytes = K.bytes sink.new; faults = K.faults sink.new; puts = K.puts sink.new }) }
{
    let Session { end, finished } = session;
    let Finished {
        accepted: _,
        journal,
        calls,
        lost,
    } = finished;
    let outcome = Outcome {
        options,
        journal: journal.into_journal(),
        calls,
    };
    let exit = ending_of(turns_end(end), lost, &outcome.calls);
    tell(alloc, report, outcome, exit, sink)
}
