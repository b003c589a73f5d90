//! The operations under the lock that a caller asks for, or a callback's command. Each is one call of the table.

use crate::state::SharedTable;
use chan_types::{Spec, Ticket};
use channel_journal::ChannelJournal;
use channel_model::Refused;
use completion_ticket::{Callback, Done};
use seat_lock::Op;

/// Accepts a request, with its callback.
#[derive(Drop)]
pub(crate) struct AcceptOp<B: Done + Drop> {
    pub by: u64,
    pub spec: Spec,
    pub token: Callback<B>,
}

impl<B: Done + Drop, J: ChannelJournal> Op<SharedTable<B, J>> for AcceptOp<B> {
    ghost use Rattle.channel_model.specs.Meanings.{Accepts};
    ghost use Rattle.shared_channel.specs.Under.{Does, plan_of};

    type Reply = Result<u64, Refused<Callback<B>>>;

    ghost means = { λ op setting before seat reply after. Does
        (Accepts plan_of op.spec op.token reply) op.by setting before seat after };

    fn run(self, state: &mut SharedTable<B, J>, seat: u64) -> Result<u64, Refused<Callback<B>>> {
        let AcceptOp { by, spec, token } = self;
        state.table.accept(seat, by, spec, token)
    }
}

/// Cancels every pending request.
#[derive(Drop)]
pub(crate) struct CancelOp {
    pub by: u64,
}

impl<B: Done + Drop, J: ChannelJournal> Op<SharedTable<B, J>> for CancelOp {
    ghost use Rattle.channel_model.specs.Meanings.{Cancels};
    ghost use Rattle.shared_channel.specs.Under.{Does};

    type Reply = u64;

    ghost means = { λ op setting before seat reply after. Does
        (Cancels reply) op.by setting before seat after };

    fn run(self, state: &mut SharedTable<B, J>, seat: u64) -> u64 {
        state.table.cancel(seat, self.by)
    }
}

/// Destroys the channel.
#[derive(Drop)]
pub(crate) struct DestroyOp {
    pub by: u64,
}

impl<B: Done + Drop, J: ChannelJournal> Op<SharedTable<B, J>> for DestroyOp {
    ghost use Rattle.channel_model.specs.Meanings.{Destroys};
    ghost use Rattle.shared_channel.specs.Under.{Does};

    type Reply = bool;

    ghost means = { λ op setting before seat reply after. Does
        (Destroys reply) op.by setting before seat after };

    fn run(self, state: &mut SharedTable<B, J>, seat: u64) -> bool {
        state.table.destroy(seat, self.by)
    }
}

/// Moves out the first ready request.
#[derive(Clone, Copy)]
pub(crate) struct TakeOp;

impl<B: Done + Drop, J: ChannelJournal> Op<SharedTable<B, J>> for TakeOp {
    ghost use Rattle.channel_model.specs.Meanings.{Takes};
    ghost use Rattle.shared_channel.specs.Under.{Does, plan_of};

    type Reply = Option<Ticket<Callback<B>>>;

    ghost means = { λ op setting before seat reply after. Does
        (Takes plan_of reply) 0 setting before seat after };

    fn run(self, state: &mut SharedTable<B, J>, seat: u64) -> Option<Ticket<Callback<B>>> {
        state.table.take(seat)
    }
}
