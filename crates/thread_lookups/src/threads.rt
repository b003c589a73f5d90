//! Four threads at one channel: three that ask, and one that runs it.

ghost use Rattle.std.specs.Prelude.{◌≡◌, ◌++◌, IfOk, IsTrue, map};
ghost use Rattle.host_lookups.specs.Answered.{addresses_of, setting_with};
ghost use Rattle.thread_lookups.specs.Shared.{AreAnswered};

use crate::beside::{Run, Share, run_at, three_beside};
use crate::requests::{Requests, requests_of};
use crate::running::FOLLOW;
use completion_ticket::Scripted;
use event_runner::Runner;
use hosts_file::Hosts;
use item_list::NoMemory;
use net_world::World;
use resolv_options::Options;
use shared_channel::{Channel, Finished, finish, last_pass};
use std::alloc::Global;
use std::sync::Wait;
use std::thread::Threads;

/// Asks a channel with these options and hosts for the addresses of these names, from three threads, while the caller's
/// thread runs it over this network; and hands out what is left of it. What is pending when a wait of the network fails is
/// answered as the channel is destroyed. For want of memory there is nothing to hand out.
pub fn look_up_from_threads<R: Threads + Wait + Sync, W: World + Drop>(
    rt: &R,
    alloc: Global,
    options: Options,
    hosts: Hosts,
    mut world: W,
    names: &[&str],
) -> Result<Finished, NoMemory>
    ensures { IfOk result (λ finished. AreAnswered (setting_with options hosts)
        (map (λ name. addresses_of name.now) names.now) finished) }
{
    let requests = requests_of(alloc, names)?;
    let runner = Runner::make(alloc, &mut world, &options)?;
    let ended = shared_by_four(rt, alloc, (options, hosts), requests, runner, world)?;
    if ended.all && ended.ran {
        Ok(ended.finished)
    } else {
        Err(NoMemory)
    }
}

/// What is left of a channel; whether all requests were accepted, and whether memory was never wanting as it was run.
#[derive(Drop)]
struct Ended {
    finished: Finished,
    all: bool,
    ran: bool,
}

/// Whether all requests of three threads were accepted.
fn all_asked(first: bool, second: bool, third: bool) -> bool
    ensures { IsTrue result → IsTrue first × IsTrue second × IsTrue third }
{
    first && second && third
}

/// A channel from its making to its end. It can't be dropped: no `?` stands behind its making.
#[tactic(auto, using(shared_channel::proofs::Theorems::all_at))]
fn shared_by_four<R: Threads + Wait + Sync, W: World + Drop>(
    rt: &R,
    alloc: Global,
    setting: (Options, Hosts),
    requests: Requests,
    runner: Runner,
    world: W,
) -> Result<Ended, NoMemory>
    ensures { IfOk result (λ ended. IsTrue ended.all → AreAnswered (setting_with setting.0 setting.1)
        (requests.first.items ++ requests.second.items ++ requests.third.items) ended.finished) }
{
    let (options, hosts) = setting;
    let (channel, mut passes) = Channel::<Scripted>::make(alloc, options, hosts, 4)?;
    let third = last_pass(&channel, &mut passes);
    let second = last_pass(&channel, &mut passes);
    let first = last_pass(&channel, &mut passes);
    let main = last_pass(&channel, &mut passes);
    let Requests {
        first: firsts,
        second: seconds,
        third: thirds,
    } = requests;
    let shares = (
        Share {
            pass: first,
            requests: firsts,
        },
        Share {
            pass: second,
            requests: seconds,
        },
        Share {
            pass: third,
            requests: thirds,
        },
    );
    let run = Run {
        pass: main,
        runner,
        world,
    };
    let (first, (second, (third, ran))) = three_beside(rt, &channel, alloc, shares, run);
    // What was asked behind the run's end is run now that nobody asks any more.
    let last = run_at(rt, &channel, ran.run);
    let all = all_asked(first.all, second.all, third.all);
    let ran = last.whole;
    passes.push_reserved(last.run.pass);
    passes.push_reserved(first.pass);
    passes.push_reserved(second.pass);
    passes.push_reserved(third.pass);
    Ok(Ended {
        finished: finish(rt, channel, passes, FOLLOW),
        all,
        ran,
    })
}
