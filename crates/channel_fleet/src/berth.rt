//! A caller's right to one channel of a fleet.

use crate::shown::Shown;
use channel_journal::ChannelJournal;
use completion_ticket::Done;
use shared_channel::Pass;
use std::marker::Model;
use watched_value::Watcher;

/// A pass of one channel, and a reader of its counts.
#[derive(Drop)]
pub(crate) struct Berth<B: Done + Drop, J: ChannelJournal> {
    pub pass: Pass<B, J>,
    pub watcher: Watcher<Shown>,
}

impl<B: Done + Drop, J: ChannelJournal> Model for Berth<B, J> {
    ghost use Rattle.std.specs.Coded.{codes};
    ghost use Rattle.chan_types.specs.PlanCode.{moves_code};
    ghost use Rattle.channel_fleet.specs.Views.{BerthView};

    ghost Value = { BerthView };

    ghost coded = { Prim.hlevel (codes, moves_code) };

    ghost view = { λ berth. record { pass = berth.pass; shown = berth.watcher } };
}
