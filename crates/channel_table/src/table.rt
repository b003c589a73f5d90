//! The table of a channel.

ghost use Rattle.std.specs.FinMap as map;
ghost use Rattle.std.specs.Prelude.{◌≡◌, ◌≤◌, [], IfOk, length};
ghost use Rattle.channel_model.specs.Journal.{accepted, past_of};
ghost use Rattle.channel_model.specs.Servers.{keyed_from};

mod accepting;
mod arriving;
mod attempt_ending;
mod channel_servers;
mod counting;
mod ending;
mod expiring;
mod failing;
mod faulting;
mod finding;
mod flown;
mod found;
mod journal_room;
mod landing;
mod leaving;
mod linked;
mod marking;
mod rows;
mod seeking;
mod server_list;
mod start_plan;
mod starting;
mod taking;

use self::channel_servers::ChannelServers;
use self::rows::Rows;
use chan_types::{KeyList, NoMemory, ServerKey, Ticket, Token};
use channel_journal::{ChannelJournal, KeptJournal};
use hosts_file::Hosts;
use net_addr::ServerAddr;
use query_machine::Servers;
use resolv_options::Options;
use std::alloc::Global;
use std::collections::VecDeque;
use std::marker::Model;

/// What the requests of a channel have come to, and its journal, which is kept or which only proofs see. Contracts see its
/// setting and its journal: what its calls answer is what the journal means, though none reads it but to show it. They see too the
/// tokens of the requests that are pending or ready, by their numbers: accept adds one, take gives it back, and no other
/// call touches them.
#[derive(Drop)]
pub struct Table<T: Token, J: ChannelJournal = KeptJournal> {
    alloc: Global,
    options: Options,
    hosts: Hosts,
    /// The pending requests, by number. They are dropped before the journal: their blocks lie between its own, and
    /// freed last they would join all of these together.
    rows: Rows<T>,
    /// The completed requests that weren't taken, in the order of their completion.
    ready: VecDeque<Ticket<T>>,
    journal: J,
    servers: ChannelServers,
    /// How many requests were accepted.
    accepted: u64,
    /// The channel was destroyed.
    closed: bool,
}

impl<T: Token, J: ChannelJournal> Model for Table<T, J> {
    ghost use Rattle.std.specs.Coded.{codes};
    ghost use Rattle.chan_types.specs.PlanCode.{moves_code};
    ghost use Rattle.channel_table.specs.Tokens.{Shown, tokens_code};

    ghost Value = { Shown T };

    ghost coded = { Prim.hlevel (codes, moves_code, tokens_code) };

    ghost use Rattle.channel_table.specs.Kept.{shown_of, IsKept};

    ghost view = { shown_of J.told };

    ghost invariant = { IsKept T.plan J.told J.room };
}

impl<T: Token, J: ChannelJournal> Table<T, J> {
    /// A table without a request. It has the room for its Destroy.
    pub fn make(alloc: Global, options: Options, hosts: Hosts) -> Result<Table<T, J>, NoMemory>
        ensures { IfOk result (λ table. table
            ≡ record { setting = record { options = options; hosts = hosts }; journal = []; tokens = map.empty }) }
    {
        let count = options.servers().len() as u32;
        let list = opening_list(alloc, options.servers().as_slice())?;
        let counts = Servers::make(alloc, count)?;
        let mut journal = J::begin(alloc)?;
        journal.reserve(1)?;
        Ok(Table {
            alloc,
            options,
            hosts,
            rows: Rows::make(alloc)?,
            ready: VecDeque::new(alloc),
            journal,
            servers: ChannelServers {
                list,
                counts,
                greatest_key: count - 1,
                greatest_link: 0,
                started: 0,
            },
            accepted: 0,
            closed: false,
        })
    }

    /// The journal.
    pub fn close(self) -> J
        ensures { J.told result ≡ self.journal }
    {
        let Table { journal, .. } = self;
        journal
    }

    /// The journal as it stands: to be read where it keeps its entries.
    pub fn journal(&self) -> &J
        ensures { J.told result.now ≡ self.now.journal }
    {
        &self.journal
    }

    /// How many requests were accepted.
    pub fn accepted(&self) -> u64
        ensures { result ≡ length (accepted (past_of self.now.journal)) }
    {
        self.accepted
    }

    /// The options that the channel was made with.
    pub fn options(&self) -> &Options
        ensures { result.now ≡ self.now.setting.options }
    {
        &self.options
    }
}

/// The servers with which a channel is made, with the keys from 0 on.
fn opening_list(alloc: Global, servers: &[ServerAddr]) -> Result<KeyList, NoMemory>
    requires few { length servers.now ≤ 8 }
    ensures { IfOk result (λ list. list ≡ keyed_from 0 servers.now) }
{
    let mut list = Vec::with_capacity(alloc, servers.len())?;
    for index in 0..servers.len() {
        list.push(ServerKey {
            key: index as u32,
            address: servers[index],
        })?;
    }
    Ok(KeyList::from_vec(list))
}
