//! A caller's right to a channel.

ghost use Rattle.std.specs.Prelude.{◌≡◌, length};

use crate::account::Account;
use channel_journal::{ChannelJournal, KeptJournal};
use completion_ticket::{Done, Hand};
use std::marker::Model;

/// A right to make calls on a channel: what a caller has there, and a hand for the commands of callbacks. It can't be
/// copied. One that is dropped is missing at the channel's end.
#[derive(Drop)]
pub struct Pass<B: Done + Drop, J: ChannelJournal = KeptJournal> {
    pub(crate) account: Account<B, J>,
    pub(crate) hand: Hand,
    ghost empty: { length hand.commands ≡ 0 },
}

impl<B: Done + Drop, J: ChannelJournal> Model for Pass<B, J> {
    ghost use Rattle.std.specs.Coded.{codes};
    ghost use Rattle.chan_types.specs.PlanCode.{moves_code};
    ghost use Rattle.shared_channel.specs.Passes.{PassView};

    ghost Value = { PassView };

    ghost coded = { Prim.hlevel (codes, moves_code) };

    ghost view = { λ pass. pass.account };
}

impl<B: Done + Drop, J: ChannelJournal> Pass<B, J> {
    /// Which of its channel's passes it is, counted from 0.
    pub fn number(&self) -> u64
        ensures { result ≡ self.now.number }
    {
        let account = &self.account;
        account.seat.number()
    }

    /// How many requests that callbacks asked through it were lost for want of memory.
    pub fn lost(&self) -> u64
        ensures { result ≡ self.now.lost }
    {
        let account = &self.account;
        account.lost
    }
}
