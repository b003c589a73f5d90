//! A thread's way to use a shared channel by several calls in a row.

ghost use Rattle.std.specs.Prelude.{◌≡◌, length};

use crate::account::HeldAccount;
use crate::looking::{CountsOp, LinkBusyOp, NextDueOp};
use crate::operations::{AcceptOp, CancelOp, DestroyOp, TakeOp};
use crate::place::Place;
use crate::running::{ArriveOp, ExpireOp, FaultOp, SetServersOp, StartOp};
use crate::state::ChannelLock;
use crate::turns::{Turns, turn_held};
use chan_types::{NoMemory, Spec, Ticket};
use channel_journal::{ChannelJournal, KeptJournal};
use channel_model::{Begun, Counts, Desk, Landed, Lapse, Refused, SetFault};
use completion_ticket::{Callback, Done, Hand};
use net_addr::ServerAddr;
use std::marker::Model;
use std::sync::Wait;

/// A place that holds its channel's lock: a desk, whose calls needn't wait for other threads, while those wait for it.
/// Contracts see the pass.
///
/// The place is inside, and its seat is in the hold: so no callback is told an answer through it while the lock is held, and
/// who has only borrowed a place can't hold the lock. The thread that has it must not use another place of the same channel,
/// which would wait for itself.
#[derive(Drop)]
pub struct HeldPlace<'c, B: Done + Drop, R: Wait, J: ChannelJournal = KeptJournal> {
    rt: &'c R,
    lock: &'c ChannelLock<B, J>,
    account: HeldAccount<'c, B, R, J>,
    hand: Hand,
    ghost here: { account.lock ≡ lock.now },
    ghost empty: { length hand.commands ≡ 0 },
}

impl<'c, B: Done + Drop, R: Wait, J: ChannelJournal> Model for HeldPlace<'c, B, R, J> {
    ghost use Rattle.std.specs.Coded.{codes};
    ghost use Rattle.chan_types.specs.PlanCode.{moves_code};
    ghost use Rattle.shared_channel.specs.Passes.{PassView};

    ghost Value = { PassView };

    ghost coded = { Prim.hlevel (codes, moves_code) };

    ghost view = { λ held. held.account };
}

impl<'c, B: Done + Drop, R: Wait, J: ChannelJournal> HeldPlace<'c, B, R, J> {
    /// The place, which waits for the lock and holds it.
    pub(crate) fn of(place: Place<'c, B, R, J>) -> HeldPlace<'c, B, R, J>
        ensures { result ≡ place.entry }
    {
        let Place { turns, hand } = place;
        let Turns { rt, lock, account } = turns;
        HeldPlace {
            rt,
            lock,
            account: account.hold(rt, lock),
            hand,
        }
    }

    /// Lets the lock go, and gives the place back.
    pub fn release(self) -> Place<'c, B, R, J>
        ensures { result ≡ self.entry }
    {
        let HeldPlace {
            rt,
            lock,
            account,
            hand,
        } = self;
        let account = account.release();
        let turns = Turns { rt, lock, account };
        Place { turns, hand }
    }
}

impl<'c, B: Done + Drop, R: Wait, J: ChannelJournal> Desk for HeldPlace<'c, B, R, J> {
    ghost use Rattle.shared_channel.specs.Passes.{desk_of};

    type Token = Callback<B>;

    ghost known = { λ held. desk_of held };

    fn accept(&mut self, spec: Spec, token: Callback<B>) -> Result<u64, Refused<Callback<B>>> {
        turn_held(&mut self.account, AcceptOp { by: 0, spec, token })
    }

    fn cancel(&mut self) -> u64 {
        turn_held(&mut self.account, CancelOp { by: 0 })
    }

    fn destroy(&mut self) -> bool {
        turn_held(&mut self.account, DestroyOp { by: 0 })
    }

    fn take(&mut self) -> Option<Ticket<Callback<B>>> {
        turn_held(&mut self.account, TakeOp)
    }

    fn start(&mut self, word: u16, mix: u16, at: u64) -> Result<Begun, NoMemory> {
        turn_held(&mut self.account, StartOp { word, mix, at })
    }

    fn arrive(&mut self, server: u32, link: u64, bytes: &[u8]) -> Result<Landed, NoMemory> {
        turn_held(
            &mut self.account,
            ArriveOp {
                server,
                link,
                bytes,
            },
        )
    }

    fn expire(&mut self, at: u64) -> Result<Lapse, NoMemory> {
        turn_held(&mut self.account, ExpireOp { at })
    }

    fn fault(&mut self, server: u32, link: u64, at: u64) -> Result<u64, NoMemory> {
        turn_held(&mut self.account, FaultOp { server, link, at })
    }

    fn next_due(&mut self) -> Option<u64> {
        turn_held(&mut self.account, NextDueOp)
    }

    fn counts(&mut self) -> Counts {
        turn_held(&mut self.account, CountsOp)
    }

    fn link_busy(&mut self, server: u32, link: u64) -> bool {
        turn_held(&mut self.account, LinkBusyOp { server, link })
    }

    fn set_servers(&mut self, servers: &[ServerAddr]) -> Result<u64, SetFault> {
        turn_held(&mut self.account, SetServersOp { servers })
    }
}
