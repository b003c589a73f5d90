//! A message that arrives.

ghost use Rattle.std.specs.Prelude.{◌≡◌};
ghost use Rattle.channel_model.specs.Meanings.{Arrives};
ghost use Rattle.channel_model.specs.Seen.{Happens};
ghost use Rattle.channel_table.specs.Tokens.{seen};

use super::Table;
use super::attempt_ending::end_attempt;
use super::journal_room::room_for_entry;
use chan_types::{NoMemory, Token};
use channel_journal::ChannelJournal;
use channel_model::Landed;

impl<T: Token, J: ChannelJournal> Table<T, J> {
    /// Takes in a message that came from this server over this link.
    pub fn arrive(
        &mut self,
        seat: u64,
        server: u32,
        link: u64,
        bytes: &[u8],
    ) -> Result<Landed, NoMemory>
        ensures done { Happens (Arrives server link bytes.now result) seat 0 (seen self.old) (seen self.new) }
        ensures tokens { self.new.tokens ≡ self.old.tokens }
    {
        let found = self
            .rows
            .find_landing(self.alloc, self.options.flags(), server, link, bytes)?;
        let copy = J::copy(self.alloc, bytes)?;
        room_for_entry(&mut self.journal, self.rows.len(), self.ready.len())?;
        match found {
            None => {
                self.rows.index_flights();
                self.journal.arrive(seat, server, link, bytes, copy);
                Ok(Landed::Stray)
            }
            Some(landing) => {
                end_attempt(
                    self.alloc,
                    &self.options,
                    &mut self.servers,
                    &mut self.rows,
                    &mut self.ready,
                    landing.index,
                    landing.is_second,
                    server,
                    landing.judged,
                    bytes,
                )?;
                self.journal.arrive(seat, server, link, bytes, copy);
                Ok(Landed::Matched {
                    number: landing.number,
                    leg: landing.leg_number,
                })
            }
        }
    }
}
