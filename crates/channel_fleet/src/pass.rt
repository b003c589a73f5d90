//! A caller's right to a fleet.

ghost use Rattle.std.specs.Prelude.{◌<◌, length};
ghost use Rattle.channel_fleet.specs.Yards.{TakesFirst};

use crate::berth::Berth;
use channel_journal::{ChannelJournal, KeptJournal};
use completion_ticket::Done;
use shared_channel::Pass;
use std::marker::Model;

/// A caller's right to a fleet: one to each of its channels. Contracts see those, in the order of the channels. It can't be
/// copied. One that is dropped is missing at the fleet's end.
#[derive(Drop)]
pub struct FleetPass<B: Done + Drop, J: ChannelJournal = KeptJournal> {
    pub(crate) berths: Vec<Berth<B, J>>,
}

impl<B: Done + Drop, J: ChannelJournal> Model for FleetPass<B, J> {
    ghost use Rattle.std.specs.Prelude.{List};
    ghost use Rattle.std.specs.Coded.{codes};
    ghost use Rattle.chan_types.specs.PlanCode.{moves_code};
    ghost use Rattle.channel_fleet.specs.Views.{BerthView};

    ghost Value = { List BerthView };

    ghost coded = { Prim.hlevel (codes, moves_code) };

    ghost view = { λ pass. pass.berths.items };
}

impl<B: Done + Drop, J: ChannelJournal> FleetPass<B, J> {
    /// Takes the pass of its first berth.
    pub(crate) fn take_first(&mut self) -> Pass<B, J>
        requires { 0 < length self.old }
        ensures { TakesFirst self.old result self.new }
    {
        let Berth { pass, .. } = self.berths.remove(0);
        pass
    }
}
