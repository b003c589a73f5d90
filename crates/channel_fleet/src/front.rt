//! What uses a fleet while it is served.

ghost use Rattle.channel_fleet.specs.Fronts.{UsesEach};
ghost use Rattle.channel_fleet.specs.Views.{IsAtFleet};

use crate::fleet::Fleet;
use crate::pass::FleetPass;
use channel_journal::ChannelJournal;
use completion_ticket::Done;
use std::sync::Wait;

/// What uses a fleet while it is served, through a pass that it is lent.
pub trait Front<B: Done + Drop, R: Wait, J: ChannelJournal> {
    ghost use Rattle.std.specs.Prelude.{List};
    ghost use Rattle.channel_fleet.specs.Views.{BerthView};

    // what it does: by what it was with its pass, and what it is with its pass then
    ghost does: { Self → List BerthView → Self → List BerthView → Type 0 };

    /// Uses the fleet, by the calls of its callers alone.
    fn act(&mut self, rt: &R, fleet: &Fleet<B, J>, pass: &mut FleetPass<B, J>)
        requires at { IsAtFleet fleet.now pass.old }
        ensures does { does self.old pass.old self.new pass.new }
        ensures uses { UsesEach pass.old pass.new };
}
