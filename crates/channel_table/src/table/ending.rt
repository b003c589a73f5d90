//! Cancelling and destroying, and how a request ends.

ghost use Rattle.std.specs.Prelude.{◌≡◌, ◌≤◌, ◌<◌, ◌+◌, ◌++◌, [], map};
ghost use Rattle.std.specs.VecDeque.{deque_capacity, deque_len};
ghost use Rattle.channel_model.specs.Meanings.{Cancels, Destroys};
ghost use Rattle.channel_table.specs.Ends.{EndsRow};
ghost use Rattle.channel_table.specs.Rows.{ended_with};
ghost use Rattle.channel_model.specs.Seen.{Happens};
ghost use Rattle.channel_table.specs.Tokens.{seen};

use super::Table;
use crate::concerned::Concerned;
use crate::held::{Held, row_at, take_at};
use crate::row::{Row, ticket_of};
use chan_types::{Answer, Bytes, Entry, Status, Ticket, Token, What};
use channel_journal::ChannelJournal;
use channel_model::Judged;
use query_machine::Leg;
use resolv_options::Options;
use std::alloc::Global;
use std::collections::VecDeque;
use std::mem;

impl<T: Token, J: ChannelJournal> Table<T, J> {
    /// Completes every pending request as cancelled, and answers how many there were. It takes no memory.
    pub fn cancel(&mut self, seat: u64, by: u64) -> u64
        ensures done { Happens (Cancels result) seat by (seen self.old) (seen self.new) }
        ensures tokens { self.new.tokens ≡ self.old.tokens }
    {
        let count = self.rows.len() as u64;
        if count == 0 {
            return 0;
        }
        self.journal.add(Entry {
            seat,
            by,
            what: What::Cancel,
        });
        self.rows
            .complete_all(self.alloc, &mut self.ready, Status::Cancelled);
        count
    }

    /// Destroys the channel and completes every pending request so. Answers whether it was the first to do so. It takes
    /// no memory.
    pub fn destroy(&mut self, seat: u64, by: u64) -> bool
        ensures done { Happens (Destroys result) seat by (seen self.old) (seen self.new) }
        ensures tokens { self.new.tokens ≡ self.old.tokens }
    {
        if self.closed {
            return false;
        }
        self.closed = true;
        self.journal.add(Entry {
            seat,
            by,
            what: What::Destroy,
        });
        self.rows
            .complete_all(self.alloc, &mut self.ready, Status::Destruction);
        true
    }
}

/// Completes each row with this status and without a reply. It takes no memory.
pub fn complete_all<T: Token>(
    alloc: Global,
    rows: &mut VecDeque<Held<T>>,
    ready: &mut VecDeque<Ticket<T>>,
    status: Status,
)
    requires room { deque_len rows.old + deque_len ready.old ≤ deque_capacity ready.old }
    ensures none { rows.new.items ≡ [] }
    ensures tickets { ready.new.items ≡ ready.old.items ++ map (ended_with status) rows.old.items }
    ensures len { deque_len rows.new ≡ 0 }
    ensures ready_len { deque_len ready.new ≡ deque_len ready.old + deque_len rows.old }
    ensures capacity { deque_capacity ready.new ≡ deque_capacity ready.old }
{
    for row in mem::replace(rows, VecDeque::new(alloc)) {
        ready.push_back_reserved(ended(alloc, row.into_row(), status));
    }
}

/// The ticket of a request that ended with this status and without a reply. It takes no memory.
fn ended<T: Token>(alloc: Global, row: Row<T>, status: Status) -> Ticket<T>
    ensures { result ≡ ended_with status row }
{
    let Row {
        number,
        token,
        call,
        ..
    } = row;
    ticket_of(alloc, number, status, Bytes::new(alloc), token, call)
}

/// Ends the attempts of the row at this index that an entry concerns, which meant this and came with this reply or
/// none, where a leg may spend so many attempts, and this is then the answer of its current candidate, if it has one.
/// It takes no memory.
#[inline(always)]
pub fn end_row<T: Token>(
    alloc: Global,
    options: &Options,
    rows: &mut VecDeque<Held<T>>,
    ready: &mut VecDeque<Ticket<T>>,
    index: usize,
    concerned: Concerned,
    judged: Judged,
    reply: Bytes,
    most: u32,
    answer: Option<Answer>,
)
    requires inside { index < deque_len rows.old }
    requires room { deque_len rows.old + deque_len ready.old ≤ deque_capacity ready.old }
    ensures ends { EndsRow options.now.flags concerned judged reply most answer index
        rows.old.items ready.old.items rows.new.items ready.new.items }
    ensures fewer { deque_len rows.new ≤ deque_len rows.old }
    ensures len { deque_len rows.new + deque_len ready.new ≡ deque_len rows.old + deque_len ready.old }
    ensures capacity { deque_capacity ready.new ≡ deque_capacity ready.old }
{
    match answer {
        None => rows[index].close(alloc, concerned, judged, reply, most),
        Some(answer) => {
            if row_at(rows, index).has_next(answer.status) {
                rows[index].ask_next(alloc, answer.status, Leg::new(options));
            } else {
                ready.push_back_reserved(take_at(rows, index).into_ticket(answer));
            }
        }
    }
}
