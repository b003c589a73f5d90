//! A pending request on the heap: a list of them moves pointers where one leaves it.

ghost use Rattle.std.specs.Prelude.{◌≡◌, ◌+◌, ◌<◌, IfErr, IfOk, IfSome, get_or, remove};
ghost use Rattle.std.specs.VecDeque.{deque_capacity, deque_len};
ghost use Rattle.query_machine.specs.Legs.{IsWaiting, attempt_from};
ghost use Rattle.channel_table.specs.After.{after, after_answer, next_row, lookups_behind};
ghost use Rattle.channel_table.specs.Rows.{begun_row, lookup_at};

use crate::concerned::Concerned;
use crate::row::{After, Row};
use chan_types::{Answer, Bytes, Status, Token};
use channel_model::Judged;
use query_machine::Leg;
use resolv_options::Options;
use std::alloc::Global;
use std::collections::VecDeque;
use std::marker::Model;

/// A pending request on the heap. Contracts see the request.
#[derive(Drop)]
pub struct Held<T: Token> {
    pub body: Box<Row<T>>,
}

impl<T: Token> Model for Held<T> {
    ghost use Rattle.channel_table.specs.declared.row.Row.{Row};

    ghost Value = { Row T };

    ghost view = { λ held. held.body.value };
}

impl<T: Token> Held<T> {
    /// This request, or it is handed back where there is no memory.
    #[inline(always)]
    pub fn of(alloc: Global, row: Row<T>) -> Result<Held<T>, Row<T>>
        ensures ok { IfOk result (λ held. held ≡ row) }
        ensures back { IfErr result (λ given. given ≡ row) }
    {
        match Box::new(alloc, row) {
            Ok(body) => Ok(Held { body }),
            Err(failed) => Err(failed.value),
        }
    }

    /// The request.
    pub fn row(&self) -> &Row<T>
        ensures { result.now ≡ self.now }
    {
        self.body.as_ref()
    }

    /// The request, off the heap.
    #[inline(always)]
    pub fn into_row(self) -> Row<T>
        ensures { result ≡ self }
    {
        Box::into_inner(self.body)
    }

    /// An attempt of this lookup begins.
    pub fn begin(
        &mut self,
        is_second: bool,
        server: u32,
        link: u64,
        id: u16,
        mix: Option<u16>,
        at: u64,
        wait: u64,
    )
        requires waits { IfSome (lookup_at is_second self.old) (λ lookup. IsWaiting lookup.leg.phase) }
        ensures { self.new ≡ begun_row (attempt_from server link id mix at wait) is_second self.old }
    {
        self.body.begin(is_second, server, link, id, mix, at, wait);
    }

    /// Ends the attempts that an entry concerns, which meant this and came with this reply or none, where a leg may
    /// spend so many. It takes no memory.
    pub fn close(
        &mut self,
        alloc: Global,
        concerned: Concerned,
        judged: Judged,
        reply: Bytes,
        most: u32,
    )
        ensures { self.new ≡ lookups_behind concerned judged reply most self.old }
    {
        self.body.close(alloc, concerned, judged, reply, most);
    }

    /// The request behind the end of the attempts that an entry concerns, which meant this and came with this reply or
    /// none, where a leg may spend so many attempts, and this is then the answer of its current candidate, if it has
    /// one. It takes no memory.
    pub fn end_attempts(
        self,
        alloc: Global,
        options: &Options,
        concerned: Concerned,
        judged: Judged,
        reply: Bytes,
        most: u32,
        answer: Option<Answer>,
    ) -> After<T>
        ensures { result ≡ after options.now.flags concerned judged reply most self answer }
    {
        match answer {
            None => {
                let mut held = self;
                held.close(alloc, concerned, judged, reply, most);
                After::Stays(held)
            }
            Some(answer) => self.end_candidate(alloc, options, answer),
        }
    }

    /// The request with this answer of its current candidate. It takes no memory.
    fn end_candidate(self, alloc: Global, options: &Options, answer: Answer) -> After<T>
        ensures { result ≡ after_answer options.now.flags answer self }
    {
        if self.row().has_next(answer.status) {
            let mut held = self;
            held.ask_next(alloc, answer.status, Leg::new(options));
            return After::Stays(held);
        }
        After::Ends(self.into_row().into_ticket(answer))
    }

    /// Asks the next candidate by this leg, where the current one has ended with this status. It takes no memory.
    pub fn ask_next(&mut self, alloc: Global, status: Status, leg: Leg)
        ensures { self.new ≡ next_row leg status self.old }
    {
        self.body.ask_next(alloc, status, leg);
    }
}

/// The request at this index of the list.
pub fn row_at<T: Token>(rows: &VecDeque<Held<T>>, index: usize) -> &Row<T>
    requires { index < deque_len rows.now }
    ensures { result.now ≡ get_or rows.now.items index result.now }
{
    rows[index].row()
}

/// Takes the request at this index out of the list: those before it move, or those behind it, whichever are fewer. None
/// moves where it is the first.
#[inline(always)]
pub fn take_at<T: Token>(rows: &mut VecDeque<Held<T>>, index: usize) -> Row<T>
    requires { index < deque_len rows.old }
    ensures value { result ≡ get_or rows.old.items index result }
    ensures items { rows.new.items ≡ remove rows.old.items index }
    ensures len { deque_len rows.new + 1 ≡ deque_len rows.old }
{
    if index == 0 {
        return take_first(rows);
    }
    match rows.remove(index) {
        Some(held) => held.into_row(),
        None => unreachable!(),
    }
}

/// Takes the first request out of the list, which has some.
#[inline(always)]
fn take_first<T: Token>(rows: &mut VecDeque<Held<T>>) -> Row<T>
    requires { 0 < deque_len rows.old }
    ensures value { result ≡ get_or rows.old.items 0 result }
    ensures items { rows.new.items ≡ remove rows.old.items 0 }
    ensures len { deque_len rows.new + 1 ≡ deque_len rows.old }
{
    match rows.pop_front() {
        Some(held) => held.into_row(),
        None => unreachable!(),
    }
}
