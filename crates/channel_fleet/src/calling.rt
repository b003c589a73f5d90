//! What callers do with a fleet.

ghost use Rattle.std.specs.Prelude.{◌≡◌, ◌<◌, ◌-◌, ◌^◌, Bool, List, count_by, length, min, sum, ℕ};
ghost use Rattle.channel_fleet.specs.Calling.{Asks, CallsBerth, CallsEach, CallsPass, ChangesAt, ShowsBerth};
ghost use Rattle.channel_fleet.specs.Views.{IsAtFleet};
ghost use Rattle.channel_model.specs.Meanings.{Accepts, Cancels, Destroys};
ghost use Rattle.shared_channel.specs.Under.{plan_of};

use crate::asked::Asked;
use crate::berth::Berth;
use crate::fleet::Fleet;
use crate::pass::FleetPass;
use crate::routing::route;
use crate::shown::Shown;
use chan_types::Spec;
use channel_journal::ChannelJournal;
use channel_model::{Desk, Refused};
use completion_ticket::{Callback, Done};
use core::mem::replace_with;
use shared_channel::{Channel, Pass};
use std::sync::Wait;

impl<B: Done + Drop, J: ChannelJournal> Fleet<B, J> {
    /// Asks the channel to which the request is routed, which may refuse it.
    #[tactic(auto, using(crate::proofs::CallingLemmas::route_below))]
    pub fn ask<R: Wait>(
        &self,
        rt: &R,
        pass: &mut FleetPass<B, J>,
        spec: Spec,
        callback: Callback<B>,
    ) -> Result<Asked, Refused<Callback<B>>>
        requires at { IsAtFleet self.now pass.old }
        ensures { Asks (length self.now) spec callback result pass.old pass.new }
    {
        let channel = route(&spec, self.channels());
        match self.ask_nth(rt, pass, channel, spec, callback) {
            Ok(number) => Ok(Asked { channel, number }),
            Err(refused) => Err(refused),
        }
    }

    /// Cancels what is pending in each channel, in order. Answers how many requests that were, as far as a count goes.
    pub fn cancel<R: Wait>(&self, rt: &R, pass: &mut FleetPass<B, J>) -> u64
        requires at { IsAtFleet self.now pass.old }
        ensures { (answers : List ℕ) × CallsEach Cancels answers pass.old pass.new × (result ≡ min (sum answers) (2 ^ 64 - 1)) }
    {
        let mut count = 0u64;
        for index in 0..self.channels() {
            count = count.saturating_add(self.cancel_nth(rt, pass, index));
        }
        count
    }

    /// Destroys each channel, in order. Answers how many of them weren't destroyed before.
    pub fn destroy<R: Wait>(&self, rt: &R, pass: &mut FleetPass<B, J>) -> u64
        requires at { IsAtFleet self.now pass.old }
        ensures { (answers : List Bool) × CallsEach Destroys answers pass.old pass.new × (result ≡ count_by (λ is_first. is_first) answers) }
    {
        let mut count = 0u64;
        for index in 0..self.channels() {
            if self.destroy_nth(rt, pass, index) {
                count += 1;
            }
        }
        count
    }

    /// What the helm of the channel with this index published last, as far as this pass is shown it; zeros before the first.
    /// It waits for nobody and takes no memory.
    #[tactic(auto, using(crate::proofs::CallingLemmas::changes_set))]
    pub fn show(&self, pass: &mut FleetPass<B, J>, channel: u64) -> Shown
        requires at { IsAtFleet self.now pass.old }
        requires here { channel < length self.now }
        ensures { ChangesAt channel (ShowsBerth result) pass.old pass.new }
    {
        show_at(&mut pass.berths[channel as usize])
    }

    /// Asks a request of the channel with this index.
    #[tactic(auto, using(crate::proofs::CallingLemmas::changes_set, crate::proofs::CallingLemmas::lock_at))]
    fn ask_nth<R: Wait>(
        &self,
        rt: &R,
        pass: &mut FleetPass<B, J>,
        index: u64,
        spec: Spec,
        callback: Callback<B>,
    ) -> Result<u64, Refused<Callback<B>>>
        requires at { IsAtFleet self.now pass.old }
        requires here { index < length self.now }
        ensures { ChangesAt index (CallsBerth (Accepts plan_of spec callback result)) pass.old pass.new }
    {
        ask_at(
            rt,
            &self.channels[index as usize],
            &mut pass.berths[index as usize],
            spec,
            callback,
        )
    }

    /// Cancels what is pending in the channel with this index.
    #[tactic(auto, using(crate::proofs::CallingLemmas::changes_set, crate::proofs::CallingLemmas::lock_at))]
    fn cancel_nth<R: Wait>(&self, rt: &R, pass: &mut FleetPass<B, J>, index: u64) -> u64
        requires at { IsAtFleet self.now pass.old }
        requires here { index < length self.now }
        ensures { ChangesAt index (CallsBerth (Cancels result)) pass.old pass.new }
    {
        cancel_at(
            rt,
            &self.channels[index as usize],
            &mut pass.berths[index as usize],
        )
    }

    /// Destroys the channel with this index. Answers whether it wasn't destroyed before.
    #[tactic(auto, using(crate::proofs::CallingLemmas::changes_set, crate::proofs::CallingLemmas::lock_at))]
    fn destroy_nth<R: Wait>(&self, rt: &R, pass: &mut FleetPass<B, J>, index: u64) -> bool
        requires at { IsAtFleet self.now pass.old }
        requires here { index < length self.now }
        ensures { ChangesAt index (CallsBerth (Destroys result)) pass.old pass.new }
    {
        destroy_at(
            rt,
            &self.channels[index as usize],
            &mut pass.berths[index as usize],
        )
    }
}

/// What this berth's reader is shown.
fn show_at<B: Done + Drop, J: ChannelJournal>(berth: &mut Berth<B, J>) -> Shown
    ensures { ShowsBerth result berth.old berth.new }
{
    berth.watcher.show()
}

/// Asks a request of this channel, through the pass of a berth.
fn ask_at<B: Done + Drop, R: Wait, J: ChannelJournal>(
    rt: &R,
    channel: &Channel<B, J>,
    berth: &mut Berth<B, J>,
    spec: Spec,
    callback: Callback<B>,
) -> Result<u64, Refused<Callback<B>>>
    requires { berth.old.pass.lock ≡ channel.now }
    ensures { CallsBerth (Accepts plan_of spec callback result) berth.old berth.new }
{
    replace_with(
        &mut berth.pass,
        (spec, callback),
        |pass, (spec, callback)| accept(rt, channel, pass, spec, callback),
    )
}

/// Cancels what is pending in this channel, through the pass of a berth.
fn cancel_at<B: Done + Drop, R: Wait, J: ChannelJournal>(
    rt: &R,
    channel: &Channel<B, J>,
    berth: &mut Berth<B, J>,
) -> u64
    requires { berth.old.pass.lock ≡ channel.now }
    ensures { CallsBerth (Cancels result) berth.old berth.new }
{
    replace_with(&mut berth.pass, (), |pass, _| cancel(rt, channel, pass))
}

/// Destroys this channel, through the pass of a berth. Answers whether it wasn't destroyed before.
fn destroy_at<B: Done + Drop, R: Wait, J: ChannelJournal>(
    rt: &R,
    channel: &Channel<B, J>,
    berth: &mut Berth<B, J>,
) -> bool
    requires { berth.old.pass.lock ≡ channel.now }
    ensures { CallsBerth (Destroys result) berth.old berth.new }
{
    replace_with(&mut berth.pass, (), |pass, _| destroy(rt, channel, pass))
}

/// Asks a request through a pass of this channel.
#[tactic(auto, using(crate::proofs::CallingLemmas::calls_pass))]
fn accept<B: Done + Drop, R: Wait, J: ChannelJournal>(
    rt: &R,
    channel: &Channel<B, J>,
    pass: Pass<B, J>,
    spec: Spec,
    callback: Callback<B>,
) -> (Pass<B, J>, Result<u64, Refused<Callback<B>>>)
    requires { pass.lock ≡ channel.now }
    ensures { CallsPass (Accepts plan_of spec callback result.1) pass result.0 }
{
    let mut place = channel.place(rt, pass);
    let answer = place.accept(spec, callback);
    (place.leave(), answer)
}

/// Cancels what is pending in this channel.
#[tactic(auto, using(crate::proofs::CallingLemmas::calls_pass))]
fn cancel<B: Done + Drop, R: Wait, J: ChannelJournal>(
    rt: &R,
    channel: &Channel<B, J>,
    pass: Pass<B, J>,
) -> (Pass<B, J>, u64)
    requires { pass.lock ≡ channel.now }
    ensures { CallsPass (Cancels result.1) pass result.0 }
{
    let mut place = channel.place(rt, pass);
    let answer = place.cancel();
    (place.leave(), answer)
}

/// Destroys this channel. Answers whether it wasn't destroyed before.
#[tactic(auto, using(crate::proofs::CallingLemmas::calls_pass))]
fn destroy<B: Done + Drop, R: Wait, J: ChannelJournal>(
    rt: &R,
    channel: &Channel<B, J>,
    pass: Pass<B, J>,
) -> (Pass<B, J>, bool)
    requires { pass.lock ≡ channel.now }
    ensures { CallsPass (Destroys result.1) pass result.0 }
{
    let mut place = channel.place(rt, pass);
    let answer = place.destroy();
    (place.leave(), answer)
}
