//! The operations under the lock that look, and leave no entry.

use crate::state::SharedTable;
use channel_journal::ChannelJournal;
use channel_model::Counts;
use completion_ticket::Done;
use seat_lock::Op;

/// When the next attempt in flight is due.
#[derive(Drop)]
pub(crate) struct NextDueOp;

impl<B: Done + Drop, J: ChannelJournal> Op<SharedTable<B, J>> for NextDueOp {
    ghost use Rattle.channel_model.specs.Meanings.{TellsDue};
    ghost use Rattle.shared_channel.specs.Under.{Does};

    type Reply = Option<u64>;

    ghost means = { λ op setting before seat reply after. Does (TellsDue reply) 0 setting before seat after };

    #[tactic(auto, using(crate::proofs::Adding::does_adds, crate::proofs::Adding::due_looks))]
    fn run(self, state: &mut SharedTable<B, J>, _seat: u64) -> Option<u64> {
        state.table.next_due()
    }
}

/// How much is pending, ready, waiting and in flight.
#[derive(Drop)]
pub(crate) struct CountsOp;

impl<B: Done + Drop, J: ChannelJournal> Op<SharedTable<B, J>> for CountsOp {
    ghost use Rattle.channel_model.specs.Meanings.{TellsCounts};
    ghost use Rattle.shared_channel.specs.Under.{Does};

    type Reply = Counts;

    ghost means = { λ op setting before seat reply after. Does
        (TellsCounts reply) 0 setting before seat after };

    #[tactic(auto, using(crate::proofs::Adding::does_adds, crate::proofs::Adding::counts_look))]
    fn run(self, state: &mut SharedTable<B, J>, _seat: u64) -> Counts {
        state.table.counts()
    }
}

/// Whether an attempt is in flight over a server's link.
#[derive(Drop)]
pub(crate) struct LinkBusyOp {
    pub server: u32,
    pub link: u64,
}

impl<B: Done + Drop, J: ChannelJournal> Op<SharedTable<B, J>> for LinkBusyOp {
    ghost use Rattle.channel_model.specs.Meanings.{TellsBusy};
    ghost use Rattle.shared_channel.specs.Under.{Does};

    type Reply = bool;

    ghost means = { λ op setting before seat reply after. Does
        (TellsBusy op.server op.link reply) 0 setting before seat after };

    #[tactic(auto, using(crate::proofs::Adding::does_adds, crate::proofs::Adding::busy_looks))]
    fn run(self, state: &mut SharedTable<B, J>, _seat: u64) -> bool {
        state.table.link_busy(self.server, self.link)
    }
}
