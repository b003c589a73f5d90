//! The end of a fleet.

ghost use Rattle.std.specs.List.{AllByRecursion};
ghost use Rattle.std.specs.Prelude.{◌≡◌, ◌≤◌, ◌<◌, ◌+◌, [], length, map, vec_capacity, vec_len};
ghost use Rattle.channel_fleet.specs.Finishing.{IsRoll, MayFinish};
ghost use Rattle.channel_fleet.specs.Views.{first_berths, later_berths, passes_with};

use crate::fleet::Fleet;
use crate::helm::Helm;
use crate::pass::FleetPass;
use chan_types::Orders;
use channel_journal::{ChannelJournal, KeptJournal};
use completion_ticket::Done;
use shared_channel::{Channel, Finished, Pass, finish};
use std::marker::Model;
use std::sync::Wait;

/// What is left of a fleet. Contracts see it as what is left of each channel, in order.
#[derive(Drop)]
pub struct Roll<J: ChannelJournal = KeptJournal> {
    parts: Vec<Finished<J>>,
}

impl<J: ChannelJournal> Model for Roll<J> {
    ghost use Rattle.std.specs.Prelude.{List};
    ghost use Rattle.shared_channel.specs.declared.finishing.Finished.{Finished};

    ghost Value = { List (Finished J) };

    ghost view = { λ roll. roll.parts.items };
}

impl<J: ChannelJournal> Roll<J> {
    /// What is left of each channel, in order.
    pub fn parts(&self) -> &[Finished<J>]
        ensures { result.now ≡ self.now }
    {
        self.parts.as_slice()
    }
}

impl<B: Done + Drop, J: ChannelJournal> Fleet<B, J> {
    /// Ends each channel, as `finish` of shared_channel does, with all of its passes. It takes no memory, but for the requests
    /// that callbacks ask.
    pub fn finish<R: Wait>(
        self,
        rt: &R,
        passes: Vec<FleetPass<B, J>>,
        helms: Vec<Helm<B, J>>,
        orders: Orders,
    ) -> Roll<J>
        requires { MayFinish self passes.items helms.items }
        ensures { IsRoll J.told orders passes.items helms.items result }
    {
        let Fleet { channels, parts } = self;
        let parts = end_all(rt, channels, parts, passes, helms, orders);
        Roll { parts }
    }
}

/// Ends each of these channels with all of its passes, into the parts, which have room for them.
pub(crate) fn end_all<B: Done + Drop, R: Wait, J: ChannelJournal>(
    rt: &R,
    channels: Vec<Channel<B, J>>,
    parts: Vec<Finished<J>>,
    passes: Vec<FleetPass<B, J>>,
    helms: Vec<Helm<B, J>>,
    orders: Orders,
) -> Vec<Finished<J>>
    requires may_finish { MayFinish channels.items passes.items helms.items }
    requires none { parts.items ≡ [] }
    requires room { vec_len channels ≤ vec_capacity parts }
    ensures { IsRoll J.told orders passes.items helms.items result.items }
{
    let mut channels = channels;
    let mut parts = parts;
    let mut passes = passes;
    let mut helms = helms;
    while !channels.is_empty() {
        let channel = channels.remove(0);
        let row = take_row(rt, &mut passes, helms.remove(0));
        parts.push_reserved(finish(rt, channel, row, orders));
    }
    channels.destroy_empty();
    helms.destroy_empty();
    parts
}

/// Takes the passes of the first channel: those of the first berths, in order, and its helm's two. Ends the helm's board.
fn take_row<B: Done + Drop, R: Wait, J: ChannelJournal>(
    rt: &R,
    passes: &mut Vec<FleetPass<B, J>>,
    helm: Helm<B, J>,
) -> Vec<Pass<B, J>>
    requires some { AllByRecursion (λ berths. 0 < length berths) passes.old.items }
    requires room { vec_len passes.old + 2 ≤ helm.turner.seats }
    ensures row { result.items ≡ passes_with (first_berths passes.old.items) helm }
    ensures later { passes.new.items ≡ map later_berths passes.old.items }
{
    let Helm {
        turner,
        caller,
        board,
        row,
        options: _options,
        runner: _runner,
        behind_turn: _behind_turn,
        made: _made,
    } = helm;
    let mut row = row;
    board.close(rt);
    take_firsts(passes, &mut row);
    row.push_reserved(caller);
    row.push_reserved(turner);
    row
}

/// Takes the pass of the first berth of each of these.
#[tactic(auto, using(crate::proofs::RowLemmas::taking_none))]
fn take_firsts<B: Done + Drop, J: ChannelJournal>(
    passes: &mut Vec<FleetPass<B, J>>,
    row: &mut Vec<Pass<B, J>>,
)
    requires some { AllByRecursion (λ berths. 0 < length berths) passes.old.items }
    requires none { row.old.items ≡ [] }
    requires room { vec_len passes.old ≤ vec_capacity row.old }
    ensures row { row.new.items ≡ map (λ berth. berth.pass) (first_berths passes.old.items) }
    ensures room { vec_capacity row.new ≡ vec_capacity row.old }
    ensures later { passes.new.items ≡ map later_berths passes.old.items }
{
    // they go round: each comes behind the others once its first is taken
    let count = passes.len();
    for _ in 0..count {
        let mut pass = passes.remove(0);
        row.push_reserved(pass.take_first());
        passes.push_reserved(pass);
    }
}
