//! A channel with one owner.

ghost use Rattle.std.specs.FinMap as finite;
ghost use Rattle.std.specs.Prelude.{◌≡◌, [], IfOk};
ghost use Rattle.channel_table.specs.Calling.{known_by_owner};

use crate::table::Table;
use chan_types::{NoMemory, Spec, Ticket, Token};
use channel_journal::{ChannelJournal, KeptJournal};
use channel_model::{Begun, Counts, Desk, Landed, Lapse, Refused, SetFault};
use hosts_file::Hosts;
use net_addr::ServerAddr;
use resolv_options::Options;
use std::alloc::Global;
use std::marker::Model;

/// A channel with one owner, who has seat 0. Contracts see its setting, the whole journal, which he made alone, and the names
/// of its tokens.
#[derive(Drop)]
pub struct Alone<T: Token, J: ChannelJournal = KeptJournal> {
    table: Table<T, J>,
    voice: u64,
}

impl<T: Token, J: ChannelJournal> Model for Alone<T, J> {
    ghost use Rattle.std.specs.Coded.{codes};
    ghost use Rattle.chan_types.specs.PlanCode.{moves_code};
    ghost use Rattle.channel_table.specs.Calling.{Owned, owned};
    ghost use Rattle.channel_table.specs.Tokens.{tokens_code};

    ghost Value = { Owned };

    ghost coded = { Prim.hlevel (codes, moves_code, tokens_code) };

    ghost view = { λ alone. owned T.name alone.voice alone.table };
}

impl<T: Token, J: ChannelJournal> Alone<T, J> {
    /// A channel without a request.
    pub fn make(alloc: Global, options: Options, hosts: Hosts) -> Result<Alone<T, J>, NoMemory>
        ensures { IfOk result (λ alone. alone
            ≡ record { setting = record { options = options; hosts = hosts }; voice = 0; seen = []; names = finite.empty }) }
    {
        Ok(Alone {
            table: Table::make(alloc, options, hosts)?,
            voice: 0,
        })
    }

    /// The entries of accept, cancel and destroy are made on this request's command from now on, or on nobody's.
    pub fn voice(&mut self, by: u64)
        ensures { self.new ≡ record self.old { voice = by } }
    {
        self.voice = by;
    }

    /// The journal.
    pub fn close(self) -> J
        ensures { J.told result ≡ self.seen }
    {
        self.table.close()
    }

    /// The journal as it stands: to be read where it keeps its entries.
    pub fn journal(&self) -> &J
        ensures { J.told result.now ≡ self.now.seen }
    {
        self.table.journal()
    }

    /// The options that the channel was made with.
    pub fn options(&self) -> &Options
        ensures { result.now ≡ self.now.setting.options }
    {
        self.table.options()
    }
}

impl<T: Token, J: ChannelJournal> Desk for Alone<T, J> {
    type Token = T;

    ghost known = { known_by_owner };

    fn accept(&mut self, spec: Spec, token: T) -> Result<u64, Refused<T>> {
        self.table.accept(0, self.voice, spec, token)
    }

    fn cancel(&mut self) -> u64 {
        self.table.cancel(0, self.voice)
    }

    fn destroy(&mut self) -> bool {
        self.table.destroy(0, self.voice)
    }

    fn take(&mut self) -> Option<Ticket<T>> {
        self.table.take(0)
    }

    fn start(&mut self, word: u16, mix: u16, at: u64) -> Result<Begun, NoMemory> {
        self.table.start(0, word, mix, at)
    }

    fn arrive(&mut self, server: u32, link: u64, bytes: &[u8]) -> Result<Landed, NoMemory> {
        self.table.arrive(0, server, link, bytes)
    }

    fn expire(&mut self, at: u64) -> Result<Lapse, NoMemory> {
        self.table.expire(0, at)
    }

    fn fault(&mut self, server: u32, link: u64, at: u64) -> Result<u64, NoMemory> {
        self.table.fault(0, server, link, at)
    }

    fn next_due(&mut self) -> Option<u64> {
        self.table.next_due()
    }

    fn counts(&mut self) -> Counts {
        self.table.counts()
    }

    fn link_busy(&mut self, server: u32, link: u64) -> bool {
        self.table.link_busy(server, link)
    }

    fn set_servers(&mut self, servers: &[ServerAddr]) -> Result<u64, SetFault> {
        self.table.set_servers(0, servers)
    }
}
