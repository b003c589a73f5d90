//! A helm that brings its channel to its answers.

ghost use Rattle.std.specs.Option.{IsSomeAnd};
ghost use Rattle.std.specs.Prelude.{◌≡◌, ◌<◌, IfErr, IfOk, Some, length};
ghost use Rattle.channel_fleet.specs.Serving.{IsBegun, NeedsMemory, Serves, watch_of};
ghost use Rattle.channel_fleet.specs.Stands.{IsAtLock, IsInServe, ServesStand, StaysInServe, SteersOn, steering_at, watch_at};
ghost use Rattle.channel_fleet.specs.Views.{IsHelmAt};
ghost use Rattle.channel_fleet.specs.declared.helm_end.HelmEnd.TheVariants.{Done};

use crate::fleet::Fleet;
use crate::helm::Helm;
use crate::helm_end::HelmEnd;
use crate::progress::Progress;
use crate::stand::Stand;
use crate::steersman::Steersman;
use chan_types::NoMemory;
use channel_journal::ChannelJournal;
use completion_ticket::Done;
use event_runner::Runner;
use net_world::World;
use shared_channel::Channel;
use std::sync::Wait;
use std::sync::atomic::AtomicBool;
use worker_session::{Coming, Turner};

impl<B: Done + Drop, J: ChannelJournal> Fleet<B, J> {
    /// Has the helm of the channel with this index bring it to its answers over this network: it calls the callbacks of what is
    /// ready, publishes the counts, and makes at most so many turns, each where a request is pending, with pauses between
    /// them, until nothing is left to be done. The network is the one with which this helm steered before, if it did, and
    /// nobody else uses it.
    pub fn steer<R: Wait, W: World + Drop>(
        &self,
        rt: &R,
        channel: u64,
        helm: Helm<B, J>,
        world: W,
        turns: u64,
    ) -> (Helm<B, J>, W, HelmEnd)
        requires here { channel < length self.now }
        requires at { IsHelmAt channel self.now helm }
        ensures serves { Serves turns (watch_of W.log W.wait_faults helm world) result.2 (watch_of W.log W.wait_faults result.0 result.1) }
        ensures origin { W.origin result.1 ≡ W.origin world }
    {
        steer_alone(rt, &self.channels[channel as usize], helm, world, turns)
    }
}

/// The same of the helm of this channel.
fn steer_alone<B: Done + Drop, R: Wait, J: ChannelJournal, W: World + Drop>(
    rt: &R,
    channel: &Channel<B, J>,
    helm: Helm<B, J>,
    world: W,
    turns: u64,
) -> (Helm<B, J>, W, HelmEnd)
    requires { IsAtLock channel.now helm }
    ensures serves { Serves turns (watch_of W.log W.wait_faults helm world) result.2 (watch_of W.log W.wait_faults result.0 result.1) }
    ensures origin { W.origin result.1 ≡ W.origin world }
{
    let returned = AtomicBool::new(true);
    let stand = steer_first(rt, channel, &returned, turns, Stand::new(helm, world));
    let (helm, world, end) = stand.into_parts();
    match end {
        Some(end) => (helm, world, end),
        None => unreachable!(),
    }
}

/// Steers from the beginning, until nothing is left to be done where that was so behind others' return.
pub(crate) fn steer_first<'f, B: Done + Drop, R: Wait, J: ChannelJournal, W: World + Drop>(
    rt: &'f R,
    channel: &'f Channel<B, J>,
    returned: &AtomicBool,
    turns: u64,
    stand: Stand<B, W, J>,
) -> Stand<B, W, J>
    requires { IsAtLock channel.now stand.helm }
    ensures serves { IsInServe W.log W.wait_faults turns (watch_at W.log W.wait_faults stand) result }
    ensures origin { W.origin result.world ≡ W.origin stand.world }
{
    let (mut helm, mut world, _) = stand.into_parts();
    let progress = Progress {
        earlier: helm.made,
        turns,
        left: turns,
        later: None,
        coming: Coming::UnderWay,
        looked: None,
    };
    match begin(&mut helm, &mut world) {
        Ok(runner) => {
            let stand = Stand {
                helm,
                world,
                end: None,
                progress,
            };
            steer_with(rt, channel, returned, stand, runner)
        }
        Err(NoMemory) => Stand {
            helm,
            world,
            end: Some(HelmEnd::NoMemory),
            progress,
        },
    }
}

/// Steers on, where something is left to be done though the helm had ended as done.
pub(crate) fn steer_again<'f, B: Done + Drop, R: Wait, J: ChannelJournal, W: World + Drop>(
    rt: &'f R,
    channel: &'f Channel<B, J>,
    stand: Stand<B, W, J>,
) -> Stand<B, W, J>
    requires at { IsAtLock channel.now stand.helm }
    requires done { stand.end ≡ Some Done }
    ensures serves { StaysInServe W.log W.wait_faults stand result }
    ensures at { IsAtLock channel.now result.helm }
    ensures origin { W.origin result.world ≡ W.origin stand.world }
{
    let Stand {
        mut helm,
        world,
        end: _end,
        progress,
    } = stand;
    let returned = AtomicBool::new(true);
    match helm.runner.take() {
        Some(runner) => {
            let stand = Stand {
                helm,
                world,
                end: None,
                progress,
            };
            steer_with(rt, channel, &returned, stand, runner)
        }
        // one that has ended as done has a runner
        None => Stand {
            helm,
            world,
            end: Some(HelmEnd::NoMemory),
            progress,
        },
    }
}

/// Takes the runner that the helm has, or else makes a new one, which tells the network the servers of the helm's channel.
fn begin<B: Done + Drop, J: ChannelJournal, W: World>(
    helm: &mut Helm<B, J>,
    world: &mut W,
) -> Result<Runner, NoMemory>
    ensures begun { IfOk result (λ runner. IsBegun helm.old runner (W.log world.old) (W.log world.new)) }
    ensures taken { IfOk result (λ _. helm.new ≡ record helm.old { runner = helm.new.runner }) }
    ensures left { IfErr result (λ fault. (helm.new ≡ helm.old)
        × NeedsMemory helm.old fault (W.log world.old) (W.log world.new)) }
    ensures waits { W.wait_faults world.new ≡ W.wait_faults world.old }
    ensures origin { W.origin world.new ≡ W.origin world.old }
{
    match helm.runner.take() {
        Some(runner) => Ok(runner),
        None => Runner::make(*helm.row.allocator(), world, &helm.options),
    }
}

/// Steers with this runner, from where the helm stands.
fn steer_with<'f, B: Done + Drop, R: Wait, J: ChannelJournal, W: World + Drop>(
    rt: &'f R,
    channel: &'f Channel<B, J>,
    returned: &AtomicBool,
    stand: Stand<B, W, J>,
    runner: Runner,
) -> Stand<B, W, J>
    requires { IsAtLock channel.now stand.helm }
    ensures steers { SteersOn W.log W.wait_faults stand.progress.earlier stand.progress.turns
        (steering_at runner stand.progress (watch_at W.log W.wait_faults stand)) result }
    ensures at { IsAtLock channel.now result.helm }
    ensures origin { W.origin result.world ≡ W.origin stand.world }
{
    let Stand {
        helm,
        world,
        end: _end,
        progress,
    } = stand;
    let Helm {
        turner,
        caller,
        board,
        row,
        options,
        runner: _runner,
        behind_turn,
        made: _made,
    } = helm;
    let Progress {
        earlier,
        turns,
        left,
        later,
        coming,
        looked,
    } = progress;
    let mut steersman = Steersman {
        turner: Turner {
            desk: channel.place(rt, turner),
            runner,
            world,
            later,
            left,
            behind_turn,
            coming,
        },
        caller: channel.place(rt, caller),
        board,
        looked,
        earlier,
        turns,
    };
    let end = steersman.run(rt, returned);
    let made = steersman.made();
    let Steersman {
        turner,
        caller,
        board,
        looked,
        earlier,
        turns,
    } = steersman;
    let Turner {
        desk,
        runner,
        world,
        later,
        left,
        behind_turn,
        coming,
        ..
    } = turner;
    let helm = Helm {
        turner: desk.leave(),
        caller: caller.leave(),
        board,
        row,
        options,
        runner: Some(runner),
        behind_turn,
        made,
    };
    Stand {
        helm,
        world,
        end: Some(end),
        progress: Progress {
            earlier,
            turns,
            left,
            later,
            coming,
            looked,
        },
    }
}
