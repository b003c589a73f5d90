//! A channel with one owner, whose journal is kept, or seen by proofs alone.

ghost use Rattle.std.specs.Prelude.{◌≡◌, IfErr, IfOk};
ghost use Rattle.channel_model.specs.Meanings.{Accepts, Arrives, Cancels, Destroys, Expires, Fails, Starts, Takes, TellsBusy, TellsCounts, TellsDue};
ghost use Rattle.c_types.specs.Told.{quiet};
ghost use Rattle.boxed_channel.specs.Journaled.{Does, IsKept, IsOpened, KeepsHosts, text_kept, voice_of};

use chan_types::{Bytes, NoMemory, Quiet, Spec, Ticket};
use channel_journal::{KeptJournal, UntoldJournal};
use channel_model::{Begun, Counts, Desk, Landed, Lapse, Refused};
use channel_table::Alone;
use hosts_file::Hosts;
use journal_text::print_run;
use resolv_options::Options;
use std::alloc::Global;

/// A channel with one owner, and what becomes of its journal, as it was chosen when the channel was made.
#[derive(Drop)]
pub enum Journaled {
    /// Only proofs see the journal, so that a long run takes no memory for it.
    Untold(Alone<Quiet, UntoldJournal>),
    /// The journal is kept, and so are the bytes of the hosts file, since its text begins with them.
    Kept {
        channel: Alone<Quiet, KeptJournal>,
        hosts: Bytes,
    },
}

impl Journaled {
    /// A channel without a request. Its journal is kept if there are bytes of a hosts file to keep with it.
    pub fn make(
        alloc: Global,
        options: Options,
        lines: Hosts,
        hosts: Option<Bytes>,
    ) -> Result<Journaled, NoMemory>
        ensures { IfOk result (IsOpened options lines hosts) }
    {
        match hosts {
            None => Ok(Journaled::Untold(Alone::make(alloc, options, lines)?)),
            Some(hosts) => Ok(Journaled::Kept {
                channel: Alone::make(alloc, options, lines)?,
                hosts,
            }),
        }
    }

    /// The text of the journal, if it is kept.
    pub fn text(&self, alloc: Global) -> Result<Option<Bytes>, NoMemory>
        ensures text { IfOk result (λ text. text ≡ text_kept self.now) }
        ensures wants { IfErr result (λ _. IsKept self.now) }
    {
        match self {
            Journaled::Untold(_) => Ok(None),
            Journaled::Kept { channel, hosts } => {
                let entries = channel.journal().entries.as_slice();
                let text = print_run(alloc, channel.options(), hosts.as_slice(), entries)?;
                Ok(Some(text))
            }
        }
    }

    // The calls of `Desk`, with its clauses, of whichever channel it is; and that one it stays.

    pub fn accept(&mut self, spec: Spec, token: Quiet) -> Result<u64, Refused<Quiet>>
        ensures done { Does (Accepts quiet spec token result) (voice_of self.old) self.old self.new }
        ensures keeps { KeepsHosts self.old self.new }
    {
        match self {
            Journaled::Untold(channel) => channel.accept(spec, token),
            Journaled::Kept { channel, .. } => channel.accept(spec, token),
        }
    }

    pub fn cancel(&mut self) -> u64
        ensures done { Does (Cancels result) (voice_of self.old) self.old self.new }
        ensures keeps { KeepsHosts self.old self.new }
    {
        match self {
            Journaled::Untold(channel) => channel.cancel(),
            Journaled::Kept { channel, .. } => channel.cancel(),
        }
    }

    pub fn destroy(&mut self) -> bool
        ensures done { Does (Destroys result) (voice_of self.old) self.old self.new }
        ensures keeps { KeepsHosts self.old self.new }
    {
        match self {
            Journaled::Untold(channel) => channel.destroy(),
            Journaled::Kept { channel, .. } => channel.destroy(),
        }
    }

    pub fn take(&mut self) -> Option<Ticket<Quiet>>
        ensures done { Does (Takes quiet result) 0 self.old self.new }
        ensures keeps { KeepsHosts self.old self.new }
    {
        match self {
            Journaled::Untold(channel) => channel.take(),
            Journaled::Kept { channel, .. } => channel.take(),
        }
    }

    pub fn start(&mut self, word: u16, mix: u16, at: u64) -> Result<Begun, NoMemory>
        ensures done { Does (Starts word mix at result) 0 self.old self.new }
        ensures keeps { KeepsHosts self.old self.new }
    {
        match self {
            Journaled::Untold(channel) => channel.start(word, mix, at),
            Journaled::Kept { channel, .. } => channel.start(word, mix, at),
        }
    }

    pub fn arrive(&mut self, server: u32, link: u64, bytes: &[u8]) -> Result<Landed, NoMemory>
        ensures done { Does (Arrives server link bytes.now result) 0 self.old self.new }
        ensures keeps { KeepsHosts self.old self.new }
    {
        match self {
            Journaled::Untold(channel) => channel.arrive(server, link, bytes),
            Journaled::Kept { channel, .. } => channel.arrive(server, link, bytes),
        }
    }

    pub fn expire(&mut self, at: u64) -> Result<Lapse, NoMemory>
        ensures done { Does (Expires at result) 0 self.old self.new }
        ensures keeps { KeepsHosts self.old self.new }
    {
        match self {
            Journaled::Untold(channel) => channel.expire(at),
            Journaled::Kept { channel, .. } => channel.expire(at),
        }
    }

    pub fn fault(&mut self, server: u32, link: u64, at: u64) -> Result<u64, NoMemory>
        ensures done { Does (Fails server link at result) 0 self.old self.new }
        ensures keeps { KeepsHosts self.old self.new }
    {
        match self {
            Journaled::Untold(channel) => channel.fault(server, link, at),
            Journaled::Kept { channel, .. } => channel.fault(server, link, at),
        }
    }

    pub fn next_due(&mut self) -> Option<u64>
        ensures done { Does (TellsDue result) 0 self.old self.new }
        ensures keeps { KeepsHosts self.old self.new }
    {
        match self {
            Journaled::Untold(channel) => channel.next_due(),
            Journaled::Kept { channel, .. } => channel.next_due(),
        }
    }

    pub fn counts(&mut self) -> Counts
        ensures done { Does (TellsCounts result) 0 self.old self.new }
        ensures keeps { KeepsHosts self.old self.new }
    {
        match self {
            Journaled::Untold(channel) => channel.counts(),
            Journaled::Kept { channel, .. } => channel.counts(),
        }
    }

    pub fn link_busy(&mut self, server: u32, link: u64) -> bool
        ensures done { Does (TellsBusy server link result) 0 self.old self.new }
        ensures keeps { KeepsHosts self.old self.new }
    {
        match self {
            Journaled::Untold(channel) => channel.link_busy(server, link),
            Journaled::Kept { channel, .. } => channel.link_busy(server, link),
        }
    }
}
