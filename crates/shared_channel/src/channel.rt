//! A channel that threads share.

ghost use Rattle.std.specs.Prelude.{◌≡◌, ◌<◌, ◌≤◌, IfOk, IfSome, IsSome};
ghost use Rattle.shared_channel.specs.Making.{ArePassesOf, IsNewChannel, IsPassOf};

use crate::account::Account;
use crate::pass::Pass;
use crate::place::Place;
use crate::state::{ChannelLock, SharedTable};
use chan_types::{Calls, NoMemory};
use channel_journal::{ChannelJournal, KeptJournal};
use channel_table::Table;
use completion_ticket::{Done, Hand};
use hosts_file::Hosts;
use resolv_options::Options;
use seat_lock::{Seat, make};
use std::alloc::Global;
use std::marker::Model;
use std::sync::Wait;

/// A channel that threads share, each by a pass of its own. It can't be dropped: `finish` alone consumes it. Contracts see
/// which channel it is.
pub struct Channel<B: Done + Drop, J: ChannelJournal = KeptJournal> {
    pub(crate) lock: ChannelLock<B, J>,
}

impl<B: Done + Drop, J: ChannelJournal> Model for Channel<B, J> {
    ghost use Rattle.atomic_table.specs.Seated.{TableId, table_id_coded};

    ghost Value = { TableId };

    ghost coded = { table_id_coded };

    ghost view = { λ channel. channel.lock };
}

impl<B: Done + Drop, J: ChannelJournal> Channel<B, J> {
    /// A channel without a request, and its passes, of which there are 1 to 64, numbered from 0.
    pub fn make(
        alloc: Global,
        options: Options,
        hosts: Hosts,
        seats: u64,
    ) -> Result<(Channel<B, J>, Vec<Pass<B, J>>), NoMemory>
        requires { (0 < seats) × (seats ≤ 64) }
        ensures { IfOk result
            (λ made. IsNewChannel made.0 (record { options = options; hosts = hosts }) seats made.1.items) }
    {
        let table = Box::new(alloc, Table::make(alloc, options, hosts)?)?;
        let Ok((lock, all)) = make(alloc, SharedTable { table }, seats) else {
            return Err(NoMemory);
        };
        let passes = passes_of(alloc, all)?;
        Ok((Channel { lock }, passes))
    }

    /// A pass at this channel, which is its channel.
    pub fn place<'c, R: Wait>(&'c self, rt: &'c R, pass: Pass<B, J>) -> Place<'c, B, R, J>
        requires { pass.lock ≡ self.now }
        ensures { result ≡ pass }
    {
        Place::at(rt, &self.lock, pass)
    }
}

/// A pass for each seat.
fn passes_of<B: Done + Drop, J: ChannelJournal>(
    alloc: Global,
    seats: Vec<Seat<SharedTable<B, J>>>,
) -> Result<Vec<Pass<B, J>>, NoMemory>
    ensures { IfOk result (λ passes. ArePassesOf seats.items passes.items) }
{
    let mut passes = Vec::new(alloc);
    for seat in seats {
        passes.push(pass_of(alloc, seat)?)?;
    }
    Ok(passes)
}

/// A pass with this seat, through which nothing was told or lost.
fn pass_of<B: Done + Drop, J: ChannelJournal>(
    alloc: Global,
    seat: Seat<SharedTable<B, J>>,
) -> Result<Pass<B, J>, NoMemory>
    ensures { IfOk result (IsPassOf seat) }
{
    let hand = Hand::make(alloc)?;
    let calls = Calls::new();
    let account = Account {
        seat,
        calls,
        lost: 0,
    };
    Ok(Pass { account, hand })
}
