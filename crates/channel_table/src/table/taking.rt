//! Taking the first request that is ready.

ghost use Rattle.std.specs.Prelude.{◌≡◌, ◌+◌, ◌∷◌, ◌<◌};
ghost use Rattle.std.specs.VecDeque.{deque_capacity, deque_len};
ghost use Rattle.channel_model.specs.Meanings.{Takes};
ghost use Rattle.channel_model.specs.Seen.{Happens};
ghost use Rattle.channel_table.specs.Tokens.{GivesToken, seen};

use super::Table;
use chan_types::{Entry, Ticket, Token, What};
use channel_journal::ChannelJournal;
use std::collections::VecDeque;

impl<T: Token, J: ChannelJournal> Table<T, J> {
    /// Moves out the first ready request. It takes no memory.
    pub fn take(&mut self, seat: u64) -> Option<Ticket<T>>
        ensures done { Happens (Takes T.plan result) seat 0 (seen self.old) (seen self.new) }
        ensures tokens { GivesToken result self.old.tokens self.new.tokens }
    {
        if self.ready.is_empty() {
            return None;
        }
        let ticket = pop_first(&mut self.ready);
        self.journal.add(Entry {
            seat,
            by: 0,
            what: What::Take {
                number: ticket.number(),
            },
        });
        Some(ticket)
    }
}

/// Takes the first item of a deque, which has some. It moves no other one.
#[inline(always)]
pub fn pop_first<X>(deque: &mut VecDeque<X>) -> X
    requires { 0 < deque_len deque.old }
    ensures items { deque.old.items ≡ result ∷ deque.new.items }
    ensures len { deque_len deque.new + 1 ≡ deque_len deque.old }
    ensures capacity { deque_capacity deque.new ≡ deque_capacity deque.old }
{
    match deque.pop_front() {
        Some(item) => item,
        None => unreachable!(),
    }
}
