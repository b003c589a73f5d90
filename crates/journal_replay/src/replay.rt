//! A journal's entries, made once more by a channel's table.

ghost use Rattle.std.specs.Prelude.{◌≡◌, ◌≤◌, [], IfOk, IsTrue, length};
ghost use Rattle.channel_model.specs.Meanings.{Takes};
ghost use Rattle.channel_model.specs.Seen.{Happens};
ghost use Rattle.channel_table.specs.Tokens.{seen};
ghost use Rattle.journal_replay.specs.Checks.{setting_of};
ghost use Rattle.journal_replay.specs.Kept.{IsKept};
ghost use Rattle.journal_replay.specs.Replays.{Follows, plan_of};

use crate::keys::Keys;
use crate::listing;
use crate::recorded::Recorded;
use crate::steps::{self, Attempt};
use chan_types::{NoMemory, Ticket, What};
use channel_table::Table;
use hosts_file::{Hosts, HostsFault};
use resolv_options::Options;
use std::alloc::Global;

/// A journal that is made once more: entry by entry, by a table of the same setting.
#[derive(Drop)]
pub(crate) struct Replay {
    alloc: Global,
    /// The letters of a query over UDP have their case drawn.
    pub(crate) draws: bool,
    pub(crate) table: Table<Recorded>,
    /// The keys that the table has given. It doesn't tell them.
    pub(crate) keys: Keys,
}

impl Replay {
    /// The empty journal of a channel with these options and the hosts file of these bytes.
    pub(crate) fn make(alloc: Global, options: &Options, hosts: &[u8]) -> Result<Replay, NoMemory>
        requires few { length hosts.now ≤ 4194304 }
        ensures empty { IfOk result (λ replay. seen replay.table
            ≡ record { setting = setting_of options.now hosts.now; journal = [] }) }
        ensures kept { IfOk result IsKept }
    {
        let hosts = match Hosts::read(alloc, hosts) {
            Ok(hosts) => hosts,
            Err(HostsFault::NoMemory) => return Err(NoMemory),
            Err(HostsFault::TooLarge) => unreachable!(),
        };
        Ok(Replay {
            alloc,
            draws: options.flags().mix,
            keys: Keys::opening(alloc, options)?,
            table: Table::make(alloc, options.copy(alloc)?, hosts)?,
        })
    }

    /// Makes an entry like this, if it is allowed, and answers whether it is. Where it isn't, another one may have been
    /// made.
    pub(crate) fn follow(&mut self, what: &What) -> Result<bool, NoMemory>
        requires { IsKept self.old }
        ensures follows { IfOk result (Follows what.now (seen self.old.table) (seen self.new.table)) }
        ensures kept { IfOk result (λ is_allowed. IsTrue is_allowed → IsKept self.new) }
    {
        match what {
            What::Accept {
                number,
                spec,
                script,
            } => steps::accept(self.alloc, &mut self.table, *number, spec, script),
            What::Cancel => Ok(steps::cancel(&mut self.table)),
            What::Destroy => Ok(steps::destroy(&mut self.table)),
            What::Take { number } => Ok(steps::take(&mut self.table, *number)),
            What::Start {
                number,
                leg,
                server,
                link,
                id,
                mix,
                moment,
            } => steps::start(
                &mut self.table,
                self.draws,
                Attempt {
                    number: *number,
                    leg: *leg,
                    server: *server,
                    link: *link,
                    id: *id,
                    mix: *mix,
                    moment: *moment,
                },
                *id,
            ),
            What::Arrive {
                server,
                link,
                bytes,
            } => steps::arrive(&mut self.table, *server, *link, bytes.as_slice()),
            What::Expire {
                number,
                leg,
                moment,
            } => steps::expire(&mut self.table, *number, *leg, *moment),
            What::Fault {
                server,
                link,
                moment,
            } => steps::fault(&mut self.table, *server, *link, *moment),
            What::Servers { list } => listing::set(
                self.alloc,
                &mut self.table,
                &mut self.keys,
                list.as_slice(),
            ),
        }
    }

    /// Moves out the first ready request.
    pub(crate) fn take(&mut self) -> Option<Ticket<Recorded>>
        ensures { Happens (Takes plan_of result) 0 0 (seen self.old.table) (seen self.new.table) }
    {
        self.table.take(0)
    }
}
