//! A turn of an account under its channel's lock.

ghost use Rattle.std.specs.Prelude.{◌≡◌, ◌+◌, ◌-◌, ◌^◌, ◌++◌, ◌∷◌, [], min};
ghost use Rattle.channel_model.specs.Known.{Calls};
ghost use Rattle.channel_model.specs.Meanings.{Accepts, Cancels, Destroys};
ghost use Rattle.shared_channel.specs.Passes.{desk_of};
ghost use Rattle.shared_channel.specs.Turns.{IsPassTurn};
ghost use Rattle.shared_channel.specs.Under.{plan_of};

use crate::account::{Account, HeldAccount};
use crate::operations::{AcceptOp, CancelOp, DestroyOp};
use crate::state::{ChannelLock, SharedTable};
use chan_types::{Call, Spec};
use channel_journal::ChannelJournal;
use channel_model::Refused;
use completion_ticket::{Callback, Done};
use seat_lock::Op;
use std::marker::Model;
use std::sync::Wait;
use ticket_delivery::CommandDesk;

/// What a caller has at a channel, with the channel's lock: it takes a turn there for each call, and for each command of a
/// callback, on that request's command.
#[derive(Drop)]
pub(crate) struct Turns<'c, B: Done + Drop, R: Wait, J: ChannelJournal> {
    pub rt: &'c R,
    pub lock: &'c ChannelLock<B, J>,
    pub account: Account<B, J>,
    ghost here: { account.lock ≡ lock.now },
}

impl<'c, B: Done + Drop, R: Wait, J: ChannelJournal> Model for Turns<'c, B, R, J> {
    ghost use Rattle.std.specs.Coded.{codes};
    ghost use Rattle.chan_types.specs.PlanCode.{moves_code};
    ghost use Rattle.shared_channel.specs.Passes.{PassView};

    ghost Value = { PassView };

    ghost coded = { Prim.hlevel (codes, moves_code) };

    ghost view = { λ turns. turns.account };
}

impl<'c, B: Done + Drop, R: Wait, J: ChannelJournal> Turns<'c, B, R, J> {
    /// Waits for the turn of the seat, and runs the operation once, alone.
    pub fn turn<O: Op<SharedTable<B, J>>>(&mut self, op: O) -> O::Reply
        ensures { IsPassTurn (O.means op) self.old result self.new }
    {
        let (rt, lock) = (self.rt, self.lock);
        take_turn(rt, lock, &mut self.account, op)
    }

    /// Notes a call of a callback, and that so many of the requests that it asked were lost.
    pub fn note(&mut self, call: Call, lost: u64)
        ensures { self.new ≡ record self.old { calls = self.old.calls ++ call ∷ []; lost = min (self.old.lost + lost) (2 ^ 64 - 1) } }
    {
        self.account.note(call, lost);
    }
}

impl<'c, B: Done + Drop, R: Wait, J: ChannelJournal> CommandDesk<Callback<B>>
    for Turns<'c, B, R, J> {
    ghost use Rattle.shared_channel.specs.Passes.{desk_of};

    ghost known = { λ turns. desk_of turns };

    fn accept_for(
        &mut self,
        by: u64,
        spec: Spec,
        token: Callback<B>,
    ) -> Result<u64, Refused<Callback<B>>>
        ensures { Calls (Accepts plan_of spec token result) by (desk_of self.old) (desk_of self.new) }
    {
        self.turn(AcceptOp { by, spec, token })
    }

    fn cancel_for(&mut self, by: u64) -> u64
        ensures { Calls (Cancels result) by (desk_of self.old) (desk_of self.new) }
    {
        self.turn(CancelOp { by })
    }

    fn destroy_for(&mut self, by: u64) -> bool
        ensures { Calls (Destroys result) by (desk_of self.old) (desk_of self.new) }
    {
        self.turn(DestroyOp { by })
    }
}

/// Waits for the turn of the account's seat, and runs the operation once, alone.
#[tactic(auto, using(crate::proofs::Telling::still_set))]
fn take_turn<B: Done + Drop, R: Wait, J: ChannelJournal, O: Op<SharedTable<B, J>>>(
    rt: &R,
    lock: &ChannelLock<B, J>,
    account: &mut Account<B, J>,
    op: O,
) -> O::Reply
    requires { account.old.lock ≡ lock.now }
    ensures lock { account.new.lock ≡ account.old.lock }
    ensures turn { IsPassTurn (O.means op) account.old result account.new }
{
    lock.turn(rt, &mut account.seat, op)
}

/// Runs the operation once, alone, as a turn of the seat that holds the lock.
#[tactic(auto, using(crate::proofs::Telling::still_set))]
pub(crate) fn turn_held<B: Done + Drop, R: Wait, J: ChannelJournal, O: Op<SharedTable<B, J>>>(
    account: &mut HeldAccount<'_, B, R, J>,
    op: O,
) -> O::Reply
    ensures lock { account.new.lock ≡ account.old.lock }
    ensures turn { IsPassTurn (O.means op) account.old result account.new }
{
    account.hold.turn(op)
}
