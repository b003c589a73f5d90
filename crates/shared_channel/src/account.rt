//! What a caller has at a channel.

ghost use Rattle.std.specs.Prelude.{IsSome, ◌≡◌, ◌+◌, ◌-◌, ◌^◌, ◌++◌, ◌∷◌, [], min};
ghost use Rattle.channel_model.specs.Journal.{own_entries};

use crate::state::{ChannelLock, SharedTable};
use chan_types::{Call, Calls};
use channel_journal::ChannelJournal;
use completion_ticket::Done;
use seat_lock::{Hold, Seat};
use std::marker::Model;
use std::sync::Wait;

/// A seat of the channel's lock, the answers that callbacks were told through it, and how many of the requests that they
/// asked were lost.
#[derive(Drop)]
pub(crate) struct Account<B: Done + Drop, J: ChannelJournal> {
    pub seat: Seat<SharedTable<B, J>>,
    pub calls: Calls,
    pub lost: u64,
    ghost is_set: { IsSome seat.setting },
    ghost aware: { seat.own ≡ own_entries seat.number seat.seen },
}

impl<B: Done + Drop, J: ChannelJournal> Model for Account<B, J> {
    ghost use Rattle.std.specs.Coded.{codes};
    ghost use Rattle.chan_types.specs.PlanCode.{moves_code};
    ghost use Rattle.shared_channel.specs.Passes.{PassView, pass_of};

    ghost Value = { PassView };

    ghost coded = { Prim.hlevel (codes, moves_code) };

    ghost view = { λ account. pass_of account.seat account.is_set account.calls account.lost };
}

impl<B: Done + Drop, J: ChannelJournal> Account<B, J> {
    /// Notes a call of a callback, and that so many of the requests that it asked were lost.
    pub fn note(&mut self, call: Call, lost: u64)
        ensures { self.new ≡ record self.old { calls = self.old.calls ++ call ∷ []; lost = min (self.old.lost + lost) (2 ^ 64 - 1) } }
    {
        self.calls.add(call);
        self.lost = self.lost.saturating_add(lost);
    }

    /// The same, once its seat holds the lock.
    pub fn hold<'c, R: Wait>(
        self,
        rt: &'c R,
        lock: &'c ChannelLock<B, J>,
    ) -> HeldAccount<'c, B, R, J>
        requires { self.lock ≡ lock.now }
        ensures { result ≡ self }
    {
        let Account { seat, calls, lost } = self;
        HeldAccount {
            hold: lock.hold(rt, seat),
            calls,
            lost,
        }
    }
}

/// The same with its seat in a hold of the lock.
#[derive(Drop)]
pub(crate) struct HeldAccount<'c, B: Done + Drop, R: Wait, J: ChannelJournal> {
    pub hold: Hold<'c, SharedTable<B, J>, R>,
    pub calls: Calls,
    pub lost: u64,
    ghost is_set: { IsSome hold.setting },
    ghost aware: { hold.own ≡ own_entries hold.number hold.seen },
}

impl<'c, B: Done + Drop, R: Wait, J: ChannelJournal> Model for HeldAccount<'c, B, R, J> {
    ghost use Rattle.std.specs.Coded.{codes};
    ghost use Rattle.chan_types.specs.PlanCode.{moves_code};
    ghost use Rattle.shared_channel.specs.Passes.{PassView, pass_of};

    ghost Value = { PassView };

    ghost coded = { Prim.hlevel (codes, moves_code) };

    ghost view = { λ account. pass_of account.hold account.is_set account.calls account.lost };
}

impl<'c, B: Done + Drop, R: Wait, J: ChannelJournal> HeldAccount<'c, B, R, J> {
    /// Lets the lock go, and gives the account back.
    pub fn release(self) -> Account<B, J>
        ensures { result ≡ self.entry }
    {
        let HeldAccount { hold, calls, lost } = self;
        Account {
            seat: hold.release(),
            calls,
            lost,
        }
    }
}
