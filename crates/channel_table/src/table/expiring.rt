//! An attempt that is due.

ghost use Rattle.std.specs.Prelude.{◌≡◌};
ghost use Rattle.channel_model.specs.Meanings.{Expires};
ghost use Rattle.channel_model.specs.Seen.{Happens};
ghost use Rattle.channel_table.specs.Ends.{server_of};
ghost use Rattle.channel_table.specs.Tokens.{seen};

use super::Table;
use super::attempt_ending::end_attempt;
use super::journal_room::room_for_entry;
use chan_types::{Entry, NoMemory, Status, Token, What};
use channel_journal::ChannelJournal;
use channel_model::{Judged, Lapse};
use query_machine::{Leg, Phase};

impl<T: Token, J: ChannelJournal> Table<T, J> {
    /// Lets the attempt that is due first expire, if it is due at this moment. It takes no memory where none is due.
    pub fn expire(&mut self, seat: u64, at: u64) -> Result<Lapse, NoMemory>
        ensures done { Happens (Expires at result) seat 0 (seen self.old) (seen self.new) }
        ensures tokens { self.new.tokens ≡ self.old.tokens }
    {
        if !self.rows.is_due(at) {
            return Ok(Lapse::NotDue);
        }
        match self.rows.find_soonest() {
            Some(first) if first.at <= at => {
                let server = server_of(&self.rows.row(first.index).lookup(first.is_second).leg);
                room_for_entry(&mut self.journal, self.rows.len(), self.ready.len())?;
                end_attempt(
                    self.alloc,
                    &self.options,
                    &mut self.servers,
                    &mut self.rows,
                    &mut self.ready,
                    first.index,
                    first.is_second,
                    server,
                    Judged::Failed(Status::TimedOut),
                    &[],
                )?;
                self.journal.add(Entry {
                    seat,
                    by: 0,
                    what: What::Expire {
                        number: first.number,
                        leg: first.leg_number,
                        moment: at,
                    },
                });
                Ok(Lapse::Expired {
                    number: first.number,
                    leg: first.leg_number,
                })
            }
            Some(_) => Ok(Lapse::NotDue),
            None => Ok(Lapse::NotDue),
        }
    }
}

/// The server of a leg's attempt, or 0 where it has none.
fn server_of(leg: &Leg) -> u32
    ensures { result ≡ server_of leg.now }
{
    match leg.phase {
        Phase::InFlight(flying) => flying.server,
        Phase::Waiting | Phase::Ended(_) => 0,
    }
}
