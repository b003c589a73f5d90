//! The operations under the lock that a turn of a runner makes, and that which sets the servers.

ghost use Rattle.std.specs.Prelude.{length, ◌≤◌};

use crate::state::SharedTable;
use chan_types::NoMemory;
use channel_journal::ChannelJournal;
use channel_model::{Begun, Landed, Lapse, SetFault};
use completion_ticket::Done;
use net_addr::ServerAddr;
use seat_lock::Op;

/// Begins an attempt of the first waiting leg.
#[derive(Drop)]
pub(crate) struct StartOp {
    pub word: u16,
    pub mix: u16,
    pub at: u64,
}

impl<B: Done + Drop, J: ChannelJournal> Op<SharedTable<B, J>> for StartOp {
    ghost use Rattle.channel_model.specs.Meanings.{Starts};
    ghost use Rattle.shared_channel.specs.Under.{Does};

    type Reply = Result<Begun, NoMemory>;

    ghost means = { λ op setting before seat reply after. Does
        (Starts op.word op.mix op.at reply) 0 setting before seat after };

    fn run(self, state: &mut SharedTable<B, J>, seat: u64) -> Result<Begun, NoMemory> {
        state.table.start(seat, self.word, self.mix, self.at)
    }
}

/// Takes in a message.
#[derive(Drop)]
pub(crate) struct ArriveOp<'a> {
    pub server: u32,
    pub link: u64,
    pub bytes: &'a [u8],
}

impl<'a, B: Done + Drop, J: ChannelJournal> Op<SharedTable<B, J>> for ArriveOp<'a> {
    ghost use Rattle.channel_model.specs.Meanings.{Arrives};
    ghost use Rattle.shared_channel.specs.Under.{Does};

    type Reply = Result<Landed, NoMemory>;

    ghost means = { λ op setting before seat reply after. Does
        (Arrives op.server op.link op.bytes.now reply) 0 setting before seat after };

    fn run(self, state: &mut SharedTable<B, J>, seat: u64) -> Result<Landed, NoMemory> {
        state.table.arrive(seat, self.server, self.link, self.bytes)
    }
}

/// Lets the attempt that is due first expire.
#[derive(Drop)]
pub(crate) struct ExpireOp {
    pub at: u64,
}

impl<B: Done + Drop, J: ChannelJournal> Op<SharedTable<B, J>> for ExpireOp {
    ghost use Rattle.channel_model.specs.Meanings.{Expires};
    ghost use Rattle.shared_channel.specs.Under.{Does};

    type Reply = Result<Lapse, NoMemory>;

    ghost means = { λ op setting before seat reply after. Does
        (Expires op.at reply) 0 setting before seat after };

    fn run(self, state: &mut SharedTable<B, J>, seat: u64) -> Result<Lapse, NoMemory> {
        state.table.expire(seat, self.at)
    }
}

/// Fails the attempts over a server's link.
#[derive(Drop)]
pub(crate) struct FaultOp {
    pub server: u32,
    pub link: u64,
    pub at: u64,
}

impl<B: Done + Drop, J: ChannelJournal> Op<SharedTable<B, J>> for FaultOp {
    ghost use Rattle.channel_model.specs.Meanings.{Fails};
    ghost use Rattle.shared_channel.specs.Under.{Does};

    type Reply = Result<u64, NoMemory>;

    ghost means = { λ op setting before seat reply after. Does
        (Fails op.server op.link op.at reply) 0 setting before seat after };

    fn run(self, state: &mut SharedTable<B, J>, seat: u64) -> Result<u64, NoMemory> {
        state.table.fault(seat, self.server, self.link, self.at)
    }
}

/// Sets the servers, of which there are 1 to 8.
#[derive(Drop)]
pub(crate) struct SetServersOp<'a> {
    pub servers: &'a [ServerAddr],
    ghost some: { 1 ≤ length servers.now },
    ghost few: { length servers.now ≤ 8 },
}

impl<'a, B: Done + Drop, J: ChannelJournal> Op<SharedTable<B, J>> for SetServersOp<'a> {
    ghost use Rattle.channel_model.specs.Meanings.{SetsServers};
    ghost use Rattle.shared_channel.specs.Under.{Does};

    type Reply = Result<u64, SetFault>;

    ghost means = { λ op setting before seat reply after. Does
        (SetsServers op.servers.now reply) 0 setting before seat after };

    fn run(self, state: &mut SharedTable<B, J>, seat: u64) -> Result<u64, SetFault> {
        state.table.set_servers(seat, self.servers)
    }
}
