//! A channel from its making to its end, with workers.

ghost use Rattle.std.specs.Prelude.{◌≡◌, ◌<◌, ◌≤◌, ◌+◌, ◌∷◌, IfOk, vec_capacity, vec_len};
ghost use Rattle.worker_rounds.specs.Whole.{AsksEach, AsksOne, IsWhole};

use crate::pump::Pump;
use crate::serving::{Served, Team, serve};
use chan_types::{NoMemory, Orders, Spec};
use channel_model::{Desk, Refused};
use completion_ticket::{Callback, Done};
use hosts_file::Hosts;
use resolv_options::Options;
use shared_channel::{Channel, Finished, Pass, Place, finish};
use std::alloc::Global;
use std::collections::VecDeque;
use std::sync::Wait;
use std::thread::Threads;

/// How many workers call callbacks, for how many tickets there is room on the way to them, and what callbacks are ordered to do.
#[derive(Clone, Copy)]
pub struct Plan {
    pub workers: u64,
    pub room: u64,
    pub orders: Orders,
}

/// What is left of a channel that was served to its end: what `finish` leaves; what was done while no request was ready; and
/// whether memory for the workers was wanting, so that all callbacks were called at the end.
#[derive(Drop)]
pub struct Whole<P: Drop> {
    pub finished: Finished,
    pub pump: P,
    pub refused: bool,
}

/// Makes a channel, accepts these requests through its owner's place, serves it with workers until all is done, and ends it.
/// For want of memory for a channel there is nothing to serve.
pub fn run_whole<B: Done + Drop + Send, P: Pump + Drop + Send, R: Threads + Wait + Sync>(
    alloc: Global,
    rt: &R,
    setting: (Options, Hosts),
    requests: Vec<(Spec, Callback<B>)>,
    plan: Plan,
    pump: P,
) -> Result<Whole<P>, NoMemory>
    requires workers { (0 < plan.workers) × (plan.workers ≤ 16) }
    requires room { (0 < plan.room) × (plan.room ≤ 4096) }
    ensures { IfOk result (λ whole. IsWhole P.steps P.ends (record { options = setting.0; hosts = setting.1 })
        plan requests.items pump whole) }
{
    let (options, hosts) = setting;
    let (channel, passes) = Channel::make(alloc, options, hosts, plan.workers + 1)?;
    let Team { owner, workers } = team_of(passes);
    let owner = ask_all(rt, &channel, owner, requests);
    let team = Team { owner, workers };
    let Served {
        team,
        pump,
        refused,
    } = serve(alloc, rt, &channel, plan.orders, plan.room, team, pump);
    let finished = finish(rt, channel, passes_of(team), plan.orders);
    Ok(Whole {
        finished,
        pump,
        refused,
    })
}

/// The first of a channel's passes is its owner's, and the others are its workers'.
fn team_of<B: Done + Drop>(passes: Vec<Pass<B>>) -> Team<B>
    requires { 0 < vec_len passes }
    ensures parts { result.owner ∷ result.workers.items ≡ passes.items }
    ensures len { vec_len result.workers + 1 ≡ vec_len passes }
    ensures room { vec_len result.workers < vec_capacity result.workers }
{
    let mut workers = passes;
    let owner = workers.remove(0);
    Team { owner, workers }
}

/// All passes again, in their order.
fn passes_of<B: Done + Drop>(team: Team<B>) -> Vec<Pass<B>>
    requires { vec_len team.workers < vec_capacity team.workers }
    ensures { result.items ≡ team.owner ∷ team.workers.items }
{
    let Team { owner, mut workers } = team;
    workers.insert(0, owner).unwrap();
    workers
}

/// Accepts these requests through a pass, in order.
fn ask_all<B: Done + Drop, R: Wait>(
    rt: &R,
    channel: &Channel<B>,
    pass: Pass<B>,
    requests: Vec<(Spec, Callback<B>)>,
) -> Pass<B>
    requires { pass.lock ≡ channel.now }
    ensures { AsksEach requests.items pass result }
{
    let mut place = channel.place(rt, pass);
    let mut requests = VecDeque::from(requests);
    while let Some((spec, token)) = requests.pop_front() {
        ask(&mut place, spec, token);
    }
    place.leave()
}

/// Accepts a request. A callback whose request is refused is told so.
fn ask<B: Done + Drop, R: Wait>(place: &mut Place<'_, B, R>, spec: Spec, token: Callback<B>)
    ensures { AsksOne (spec, token) place.old place.new }
{
    if let Err(Refused { why, token, .. }) = place.accept(spec, token) {
        token.refuse(why);
    }
}
