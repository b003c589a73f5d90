//! What is done behind a front: each helm goes on until nothing is left to be done, and each reader is shown all.

ghost use Rattle.std.specs.List.{AllZip};
ghost use Rattle.std.specs.Prelude.{◌≡◌, ◌≤◌, IsTrue, Some, length, map};
ghost use Rattle.channel_fleet.specs.Fronts.{AgreesWith, LooksBehind, LooksOn};
ghost use Rattle.channel_fleet.specs.Stands.{AreHelmsOf, IsAtLock, IsOverAt, StaysInServe};
ghost use Rattle.channel_fleet.specs.Views.{IsAtFleet};
ghost use Rattle.channel_fleet.specs.declared.helm_end.HelmEnd.TheVariants.{Done};

use crate::berth::Berth;
use crate::helm_end::HelmEnd;
use crate::shown::Shown;
use crate::stand::Stand;
use crate::steering::steer_again;
use channel_journal::ChannelJournal;
use channel_model::Desk;
use completion_ticket::Done;
use core::mem::replace_with;
use net_world::World;
use shared_channel::{Channel, Pass};
use std::sync::Wait;
use watched_value::{Publisher, Watcher};

/// Settles each of these channels, one after the other.
pub(crate) fn settle_each<B: Done + Drop, W: World + Drop, R: Wait, J: ChannelJournal>(
    rt: &R,
    channels: &[Channel<B, J>],
    stands: &mut [Stand<B, W, J>],
    berths: &mut [Berth<B, J>],
)
    requires at { IsAtFleet channels.now berths.old }
    requires helms { AreHelmsOf channels.now (map (λ stand. stand.helm) stands.old) }
    ensures serves { AllZip (StaysInServe W.log W.wait_faults) stands.old stands.new }
    ensures origins { AllZip (λ old new. W.origin new.world ≡ W.origin old.world) stands.old stands.new }
    ensures looked { AllZip LooksBehind berths.old berths.new }
    ensures agree { AllZip AgreesWith stands.new berths.new }
{
    let Some((channel, channels)) = channels.split_first() else {
        return;
    };
    let Some((stand, stands)) = stands.split_first_mut() else {
        return;
    };
    let Some((berth, berths)) = berths.split_first_mut() else {
        return;
    };
    settle(rt, channel, stand, berth);
    settle_each(rt, channels, stands, berths);
}

/// Has a helm that has ended as done go on, until nothing is left to be done at its channel as the berth's pass sees it. Then
/// the berth's reader has seen all that the helm has published.
fn settle<B: Done + Drop, W: World + Drop, R: Wait, J: ChannelJournal>(
    rt: &R,
    channel: &Channel<B, J>,
    stand: &mut Stand<B, W, J>,
    berth: &mut Berth<B, J>,
)
    requires helm { IsAtLock channel.now stand.old.helm }
    requires pass { berth.old.pass.lock ≡ channel.now }
    ensures serves { StaysInServe W.log W.wait_faults stand.old stand.new }
    ensures origin { W.origin stand.new.world ≡ W.origin stand.old.world }
    ensures looked { LooksBehind berth.old berth.new }
    ensures agree { AgreesWith stand.new berth.new }
{
    finish_serve(rt, channel, stand, &mut berth.pass);
    show_all(rt, stand, &mut berth.watcher);
}

/// Has a helm that has ended as done go on, until nothing is left to be done as this pass sees it.
fn finish_serve<B: Done + Drop, W: World + Drop, R: Wait, J: ChannelJournal>(
    rt: &R,
    channel: &Channel<B, J>,
    stand: &mut Stand<B, W, J>,
    pass: &mut Pass<B, J>,
)
    requires helm { IsAtLock channel.now stand.old.helm }
    requires pass { pass.old.lock ≡ channel.now }
    ensures serves { StaysInServe W.log W.wait_faults stand.old stand.new }
    ensures origin { W.origin stand.new.world ≡ W.origin stand.old.world }
    ensures looked { LooksOn pass.old pass.new }
    ensures over { stand.new.end ≡ Some Done → IsOverAt pass.new }
{
    for _ in rt.forever() {
        let over = look(rt, channel, pass);
        if over || !is_done(stand) {
            return;
        }
        steer_on(rt, channel, stand);
    }
    unreachable!()
}

/// Whether the stand's helm has ended as done.
fn is_done<B: Done + Drop, W, J: ChannelJournal>(stand: &Stand<B, W, J>) -> bool
    ensures yes { IsTrue result → stand.now.end ≡ Some Done }
    ensures no { stand.now.end ≡ Some Done → IsTrue result }
{
    stand.end == Some(HelmEnd::Done)
}

/// Steers on, where the helm has ended as done.
fn steer_on<B: Done + Drop, W: World + Drop, R: Wait, J: ChannelJournal>(
    rt: &R,
    channel: &Channel<B, J>,
    stand: &mut Stand<B, W, J>,
)
    requires at { IsAtLock channel.now stand.old.helm }
    requires done { stand.old.end ≡ Some Done }
    ensures serves { StaysInServe W.log W.wait_faults stand.old stand.new }
    ensures at { IsAtLock channel.now stand.new.helm }
    ensures origin { W.origin stand.new.world ≡ W.origin stand.old.world }
{
    replace_with(stand, (), |stand, _| (steer_again(rt, channel, stand), ()));
}

/// Looks at the channel through a pass, and answers whether nothing is pending or ready.
fn look<B: Done + Drop, R: Wait, J: ChannelJournal>(
    rt: &R,
    channel: &Channel<B, J>,
    pass: &mut Pass<B, J>,
) -> bool
    requires { pass.old.lock ≡ channel.now }
    ensures looks { LooksOn pass.old pass.new }
    ensures over { IsTrue result → IsOverAt pass.new }
{
    replace_with(pass, (), |pass, _| look_through(rt, channel, pass))
}

/// The same through a pass by value.
fn look_through<B: Done + Drop, R: Wait, J: ChannelJournal>(
    rt: &R,
    channel: &Channel<B, J>,
    pass: Pass<B, J>,
) -> (Pass<B, J>, bool)
    requires { pass.lock ≡ channel.now }
    ensures looks { LooksOn pass result.0 }
    ensures over { IsTrue result.1 → IsOverAt result.0 }
{
    let mut place = channel.place(rt, pass);
    let counts = place.counts();
    (place.leave(), counts.pending == 0 && counts.ready == 0)
}

/// Shows the reader all that the stand's helm has published.
fn show_all<B: Done + Drop, W: World, R: Wait, J: ChannelJournal>(
    rt: &R,
    stand: &mut Stand<B, W, J>,
    watcher: &mut Watcher<Shown>,
)
    ensures stand { stand.new ≡ stand.old }
    ensures shown { watcher.new ≡ stand.old.helm.told }
    ensures count { length watcher.old ≤ length watcher.new }
{
    let helm = &mut stand.helm;
    catch_up(rt, &mut helm.board, watcher);
}

/// Puts a reader that has seen all in this one's place. There is room for one reader more than a channel has.
fn catch_up<R: Wait>(rt: &R, board: &mut Publisher<Shown>, watcher: &mut Watcher<Shown>)
    ensures same { board.new ≡ board.old }
    ensures shown { watcher.new ≡ board.old }
    ensures count { length watcher.old ≤ length watcher.new }
{
    for _ in rt.forever() {
        if board.catch_up(watcher) {
            return;
        }
    }
    unreachable!()
}
