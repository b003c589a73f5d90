//! A thread's way to use a channel that others use too.

ghost use Rattle.std.specs.Prelude.{◌≡◌, length};

use crate::held::HeldPlace;
use crate::looking::{CountsOp, LinkBusyOp, NextDueOp};
use crate::operations::{AcceptOp, CancelOp, DestroyOp, TakeOp};
use crate::pass::Pass;
use crate::running::{ArriveOp, ExpireOp, FaultOp, SetServersOp, StartOp};
use crate::state::ChannelLock;
use crate::turns::Turns;
use chan_types::{NoMemory, Spec, Ticket};
use channel_journal::{ChannelJournal, KeptJournal};
use channel_model::{Begun, Counts, Desk, Landed, Lapse, Refused, SetFault};
use completion_ticket::{Callback, Done, Hand};
use net_addr::ServerAddr;
use std::marker::Model;
use std::sync::Wait;

/// A pass at its channel: a desk. Contracts see the pass.
#[derive(Drop)]
pub struct Place<'c, B: Done + Drop, R: Wait, J: ChannelJournal = KeptJournal> {
    pub(crate) turns: Turns<'c, B, R, J>,
    pub(crate) hand: Hand,
    ghost empty: { length hand.commands ≡ 0 },
}

impl<'c, B: Done + Drop, R: Wait, J: ChannelJournal> Model for Place<'c, B, R, J> {
    ghost use Rattle.std.specs.Coded.{codes};
    ghost use Rattle.chan_types.specs.PlanCode.{moves_code};
    ghost use Rattle.shared_channel.specs.Passes.{PassView};

    ghost Value = { PassView };

    ghost coded = { Prim.hlevel (codes, moves_code) };

    ghost view = { λ place. place.turns };
}

impl<'c, B: Done + Drop, R: Wait, J: ChannelJournal> Place<'c, B, R, J> {
    /// The pass at the channel of this lock.
    pub(crate) fn at(rt: &'c R, lock: &'c ChannelLock<B, J>, pass: Pass<B, J>) -> Place<'c, B, R, J>
        requires { pass.lock ≡ lock.now }
        ensures { result ≡ pass }
    {
        let Pass { account, hand } = pass;
        let turns = Turns { rt, lock, account };
        Place { turns, hand }
    }

    /// The number of its pass.
    pub fn number(&self) -> u64
        ensures { result ≡ self.now.number }
    {
        let account = &self.turns.account;
        account.seat.number()
    }

    /// How many requests that callbacks asked through its pass were lost for want of memory.
    pub fn lost(&self) -> u64
        ensures { result ≡ self.now.lost }
    {
        let account = &self.turns.account;
        account.lost
    }

    /// Waits until no other thread holds the channel's lock, and holds it: calls in a row are then cheaper.
    pub fn hold(self) -> HeldPlace<'c, B, R, J>
        ensures { result ≡ self.entry }
    {
        HeldPlace::of(self)
    }

    /// The pass again.
    pub fn leave(self) -> Pass<B, J>
        ensures { result ≡ self.entry }
    {
        let Place { turns, hand } = self;
        let Turns { account, .. } = turns;
        Pass { account, hand }
    }
}

impl<'c, B: Done + Drop, R: Wait, J: ChannelJournal> Desk for Place<'c, B, R, J> {
    ghost use Rattle.shared_channel.specs.Passes.{desk_of};

    type Token = Callback<B>;

    ghost known = { λ place. desk_of place };

    fn accept(&mut self, spec: Spec, token: Callback<B>) -> Result<u64, Refused<Callback<B>>> {
        self.turns.turn(AcceptOp { by: 0, spec, token })
    }

    fn cancel(&mut self) -> u64 {
        self.turns.turn(CancelOp { by: 0 })
    }

    fn destroy(&mut self) -> bool {
        self.turns.turn(DestroyOp { by: 0 })
    }

    fn take(&mut self) -> Option<Ticket<Callback<B>>> {
        self.turns.turn(TakeOp)
    }

    fn start(&mut self, word: u16, mix: u16, at: u64) -> Result<Begun, NoMemory> {
        self.turns.turn(StartOp { word, mix, at })
    }

    fn arrive(&mut self, server: u32, link: u64, bytes: &[u8]) -> Result<Landed, NoMemory> {
        self.turns.turn(ArriveOp {
            server,
            link,
            bytes,
        })
    }

    fn expire(&mut self, at: u64) -> Result<Lapse, NoMemory> {
        self.turns.turn(ExpireOp { at })
    }

    fn fault(&mut self, server: u32, link: u64, at: u64) -> Result<u64, NoMemory> {
        self.turns.turn(FaultOp { server, link, at })
    }

    fn next_due(&mut self) -> Option<u64> {
        self.turns.turn(NextDueOp)
    }

    fn counts(&mut self) -> Counts {
        self.turns.turn(CountsOp)
    }

    fn link_busy(&mut self, server: u32, link: u64) -> bool {
        self.turns.turn(LinkBusyOp { server, link })
    }

    fn set_servers(&mut self, servers: &[ServerAddr]) -> Result<u64, SetFault> {
        self.turns.turn(SetServersOp { servers })
    }
}
