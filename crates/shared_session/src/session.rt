//! A channel that workers share, from its making to its end.

ghost use Rattle.std.specs.Option.{ForSome};
ghost use Rattle.std.specs.Prelude.{◌≡◌, ◌<◌, ◌≤◌, IfSome, None, length};
ghost use Rattle.net_world.specs.Cause.{Rose};
ghost use Rattle.shared_session.specs.Asking.{askings};
ghost use Rattle.shared_session.specs.Session.{IsSession, TellsSome};
ghost use Rattle.shared_session.specs.declared.task.SessionEnd.TheVariants.{WaitFault};

use crate::asking::ask_all;
use crate::passes::parts_of;
use crate::task::{Ran, Session, Task};
use crate::turns::{Given, Turned, run_turns};
use completion_ticket::Done;
use event_runner::Runner;
use hosts_file::Hosts;
use net_world::World;
use resolv_options::Options;
use shared_channel::{Channel, finish};
use std::alloc::Global;
use std::sync::Wait;
use std::thread::Threads;

/// Makes a runner and a channel, accepts the requests, serves the channel with workers while a turner makes its turns, and
/// ends it. A channel that was made is ended in every case, so that each callback is called. Where memory for a runner or a
/// channel is wanting there is no session.
pub fn run_shared<B: Done + Drop + Send, W: World + Drop + Send, R: Threads + Wait + Sync>(
    alloc: Global,
    rt: &R,
    setting: (Options, Hosts),
    task: Task<B>,
    world: W,
) -> Ran<W>
    requires workers { (0 < task.workers) × (task.workers ≤ 16) }
    requires servers { ForSome task.later (λ later. (1 ≤ length later) × (length later ≤ 8)) }
    ensures session { IfSome result.session (λ session. IsSession (λ journal. journal.entries.items)
        (record { options = setting.0; hosts = setting.1 }) (askings task.requests.items) task.orders task.later task.workers task.turns
        session.end session.finished (W.log world) (W.log result.world)) }
    ensures unmade { result.session ≡ None → TellsSome setting.0.servers (W.log world) (W.log result.world) }
    ensures waits { W.wait_faults world ≤ W.wait_faults result.world }
    ensures wait_fault { IfSome result.session (λ session. session.end ≡ WaitFault
        → Rose (W.wait_faults world) (W.wait_faults result.world)) }
    ensures origin { W.origin result.world ≡ W.origin world }
{
    let (options, hosts) = setting;
    let Task {
        requests,
        orders,
        later,
        workers,
        turns,
    } = task;
    let mut world = world;
    let Ok(runner) = Runner::make(alloc, &mut world, &options) else {
        return Ran {
            session: None,
            world,
        };
    };
    let Ok((channel, passes)) = Channel::make(alloc, options, hosts, workers + 2) else {
        return Ran {
            session: None,
            world,
        };
    };
    let (first, team) = parts_of(passes);
    let (first, asked) = ask_all(rt, &channel, first, requests);
    let given = Given {
        asked,
        orders,
        later,
        turns,
    };
    let Turned { end, passes, world } = run_turns(
        alloc, rt, &channel, given, first, team, runner, world,
    );
    let finished = finish(rt, channel, passes, orders);
    Ran {
        session: Some(Session { end, finished }),
        world,
    }
}
