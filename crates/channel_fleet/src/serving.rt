//! A fleet that is served: each channel by its helm, beside a front that uses the fleet.

ghost use Rattle.std.specs.List.{AllZip};
ghost use Rattle.std.specs.Prelude.{◌≡◌, ◌<◌, length, map, ℕ};
ghost use Rattle.atomic_table.specs.Seated.{TableId};
ghost use Rattle.channel_fleet.specs.Beside.{DoEach, MayEach};
ghost use Rattle.channel_fleet.specs.Fronts.{AgreesWith, UsesEach, UsesFleet};
ghost use Rattle.channel_fleet.specs.Stands.{AreHelmsOf, IsAtLock, IsInServe, ServesStand, watch_at};
ghost use Rattle.channel_fleet.specs.Views.{IsAtFleet};

use crate::beside::{Part, Share, beside};
use crate::fleet::Fleet;
use crate::front::Front;
use crate::pass::FleetPass;
use crate::settling::settle_each;
use crate::stand::Stand;
use crate::steering::steer_first;
use channel_journal::ChannelJournal;
use completion_ticket::Done;
use core::mem::{replace, replace_with};
use net_world::World;
use shared_channel::Channel;
use std::sync::Wait;
use std::sync::atomic::{AtomicBool, Ordering};
use std::thread::Threads;

impl<B: Done + Drop + Send, J: ChannelJournal + Send + Sync> Fleet<B, J> {
    /// Serves the fleet: has each helm bring its channel to its answers over its network, in a thread of its own, beside the
    /// front, which uses the fleet through this pass. A helm makes at most so many turns. It ends as done only where nothing
    /// was left to be done once the front had returned, as the helm sees it and then as this pass does; for that it goes on
    /// in the caller's thread, if need be. In the end the pass is shown all that was published.
    pub fn serve<W: World + Drop + Send, F: Front<B, R, J> + Send, R: Threads + Wait + Sync>(
        &self,
        rt: &R,
        stands: &mut [Stand<B, W, J>],
        front: F,
        pass: &mut FleetPass<B, J>,
        turns: u64,
    ) -> F
        requires at { IsAtFleet self.now pass.old }
        requires helms { AreHelmsOf self.now (map (λ stand. stand.helm) stands.old) }
        ensures front { UsesFleet F.does front pass.old result pass.new }
        ensures helms { AllZip (ServesStand W.log W.wait_faults turns) stands.old stands.new }
        ensures origins { AllZip (λ old new. W.origin new.world ≡ W.origin old.world) stands.old stands.new }
        ensures agree { AllZip AgreesWith stands.new pass.new }
    {
        let returned = AtomicBool::new(false);
        let nobody = Vec::new(*pass.berths.allocator());
        let lent = FleetPass {
            berths: replace(&mut pass.berths, nobody),
        };
        let (front, lent) = run_beside(rt, self, stands, front, lent, &returned, turns);
        pass.berths = lent.berths;
        settle_each(rt, &self.channels, stands, &mut pass.berths);
        front
    }
}

/// The front, with the pass that it is lent.
struct FrontPart<'f, B: Done + Drop, J: ChannelJournal, F> {
    fleet: &'f Fleet<B, J>,
    front: F,
    pass: FleetPass<B, J>,
    returned: &'f AtomicBool,
    ghost at: { IsAtFleet fleet.now pass },
}

impl<'f, B: Done + Drop, R: Wait, J: ChannelJournal, F: Front<B, R, J>> Part<R>
    for FrontPart<'f, B, J, F> {
    ghost use Rattle.channel_fleet.specs.Fronts.{UsesEach};

    ghost does = { λ old new. F.does old.front old.pass new.front new.pass × UsesEach old.pass new.pass };

    /// Has the front use the fleet, and tells the helms when it has returned.
    fn run(&mut self, rt: &R) {
        self.front.act(rt, self.fleet, &mut self.pass);
        self.returned.store(true, Ordering::SeqCst);
    }
}

/// What each helm is to know.
#[derive(Drop)]
struct Helming<'f, B: Done + Drop, J: ChannelJournal> {
    channels: &'f [Channel<B, J>],
    returned: &'f AtomicBool,
    turns: u64,
}

impl<'f, B: Done + Drop, W: World + Drop, R: Wait, J: ChannelJournal> Share<Helming<'f, B, J>, R>
    for Stand<B, W, J> {
    ghost use Rattle.std.specs.Prelude.{◌≡◌, ◌<◌, length, slice_index_or};
    ghost use Rattle.atomic_table.specs.Seated.{TableId};
    ghost use Rattle.channel_fleet.specs.Stands.{IsAtLock, IsInServe, watch_at};

    ghost may = { λ helming index stand. (index < length helming.channels.now)
        × ((lock : TableId) → IsAtLock (slice_index_or helming.channels.now index lock) stand.helm) };

    ghost does = { λ helming old new. IsInServe W.log W.wait_faults helming.turns (watch_at W.log W.wait_faults old) new
        × (W.origin new.world ≡ W.origin old.world) };

    /// Has the helm of the channel with this index bring it to its answers.
    fn run(&mut self, rt: &R, helming: &Helming<'f, B, J>, index: usize) {
        let channels = helming.channels;
        steer_one(rt, &channels[index], self, helming.returned, helming.turns);
    }
}

/// The front beside the helms, each of which has a thread of its own.
fn run_beside<
    'f,
    B: Done + Drop + Send,
    W: World + Drop + Send,
    F: Front<B, R, J> + Send,
    R: Threads + Wait + Sync,
    J: ChannelJournal + Send + Sync,
>(
    rt: &R,
    fleet: &'f Fleet<B, J>,
    stands: &mut [Stand<B, W, J>],
    front: F,
    pass: FleetPass<B, J>,
    returned: &'f AtomicBool,
    turns: u64,
) -> (F, FleetPass<B, J>)
    requires at { IsAtFleet fleet.now pass }
    requires helms { AreHelmsOf fleet.now (map (λ stand. stand.helm) stands.old) }
    ensures does { F.does front pass result.0 result.1 }
    ensures uses { UsesEach pass result.1 }
    ensures helms { DoEach (λ old new. IsInServe W.log W.wait_faults turns (watch_at W.log W.wait_faults old) new
        × (W.origin new.world ≡ W.origin old.world)) stands.old stands.new }
{
    let mut main = FrontPart {
        fleet,
        front,
        pass,
        returned,
    };
    let helming = Helming {
        channels: &fleet.channels,
        returned,
        turns,
    };
    beside(rt, &mut main, &helming, stands);
    let FrontPart {
        fleet: _fleet,
        front,
        pass,
        returned: _returned,
    } = main;
    (front, pass)
}

/// Has this helm bring its channel to its answers.
fn steer_one<B: Done + Drop, W: World + Drop, R: Wait, J: ChannelJournal>(
    rt: &R,
    channel: &Channel<B, J>,
    stand: &mut Stand<B, W, J>,
    returned: &AtomicBool,
    turns: u64,
)
    requires { IsAtLock channel.now stand.old.helm }
    ensures serves { IsInServe W.log W.wait_faults turns (watch_at W.log W.wait_faults stand.old) stand.new }
    ensures origin { W.origin stand.new.world ≡ W.origin stand.old.world }
{
    replace_with(
        stand,
        (),
        |stand, _| (steer_first(rt, channel, returned, turns, stand), ()),
    );
}
