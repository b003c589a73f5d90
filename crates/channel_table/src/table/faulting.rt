//! A fault of a link: every attempt over it fails.

ghost use Rattle.std.specs.Prelude.{◌≡◌};
ghost use Rattle.channel_model.specs.Meanings.{Fails};
ghost use Rattle.channel_model.specs.Seen.{Happens};
ghost use Rattle.channel_table.specs.Tokens.{seen};

use super::Table;
use super::journal_room::room_for_entry;
use chan_types::{Entry, NoMemory, Token, What};
use channel_journal::ChannelJournal;

impl<T: Token, J: ChannelJournal> Table<T, J> {
    /// Fails the attempts that are in flight on this server over this link, and answers how many there were.
    pub fn fault(&mut self, seat: u64, server: u32, link: u64, at: u64) -> Result<u64, NoMemory>
        ensures done { Happens (Fails server link at result) seat 0 (seen self.old) (seen self.new) }
        ensures tokens { self.new.tokens ≡ self.old.tokens }
    {
        let most = self.servers.most_attempts(&self.options);
        room_for_entry(&mut self.journal, self.rows.len(), self.ready.len())?;
        let count = self.rows.fail_all(
            self.alloc,
            &self.options,
            &mut self.ready,
            server,
            link,
            most,
        )?;
        self.journal.add(Entry {
            seat,
            by: 0,
            what: What::Fault {
                server,
                link,
                moment: at,
            },
        });
        self.servers.count_fault(server, count);
        Ok(count)
    }
}
