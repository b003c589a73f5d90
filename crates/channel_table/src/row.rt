//! A request that isn't completed.

ghost use Rattle.std.specs.Prelude.{◌≡◌, IfOk, IfSome};
ghost use Rattle.chan_types.specs.declared.status.Status.TheVariants as statuses;
ghost use Rattle.channel_model.specs.Merge.{bare, same_status};
ghost use Rattle.channel_model.specs.Search.{goes_on};
ghost use Rattle.query_machine.specs.Legs.{IsWaiting, attempt_from};
ghost use Rattle.channel_table.specs.After.{answer_behind, has_next, last_status, next_row, lookups_behind};
ghost use Rattle.channel_table.specs.Rows.{begun_row, lookup_at};

use crate::answering::{answer_of, bare_answer};
use crate::concerned::Concerned;
use crate::held::Held;
use crate::held_lookup::HeldLookup;
use crate::lookup::Lookup;
use crate::wanted::Wanted;
use chan_types::{Answer, Bytes, Call, NoMemory, Status, Ticket, Token};
use channel_model::Judged;
use query_machine::Leg;
use resolv_options::Options;
use std::alloc::Global;

/// A request that isn't completed: its number, the questions of its current candidate, and what its ticket will be made
/// of.
#[derive(Drop)]
pub struct Row<T: Token> {
    pub number: u64,
    /// What its answer is made of.
    pub wanted: Wanted,
    /// A candidate before the current one ended without data.
    pub empty: bool,
    pub first: Lookup,
    /// The question for AAAA records, beside that for A records.
    pub second: Option<HeldLookup>,
    pub token: T,
    pub call: Call,
}

/// What becomes of a request whose attempt has come to its end.
#[derive(Drop)]
pub enum After<T: Token> {
    /// It goes on.
    Stays(Held<T>),
    /// It is completed.
    Ends(Ticket<T>),
}

impl<T: Token> Row<T> {
    /// The second lookup if it is asked for and there is one, else the first.
    pub fn lookup(&self, is_second: bool) -> &Lookup
        ensures { IfSome (lookup_at is_second self.now) (λ lookup. result.now ≡ lookup) }
    {
        match &self.second {
            Some(lookup) if is_second => lookup.lookup(),
            Some(_) | None => &self.first,
        }
    }

    /// An attempt of this lookup begins.
    #[inline(always)]
    pub fn begin(
        &mut self,
        is_second: bool,
        server: u32,
        link: u64,
        id: u16,
        mix: Option<u16>,
        at: u64,
        wait: u64,
    )
        requires waits { IfSome (lookup_at is_second self.old) (λ lookup. IsWaiting lookup.leg.phase) }
        ensures { self.new ≡ begun_row (attempt_from server link id mix at wait) is_second self.old }
    {
        if is_second {
            if let Some(lookup) = &mut self.second {
                lookup.body.begin(server, link, id, mix, at, wait);
            }
        } else {
            self.first.begin(server, link, id, mix, at, wait);
        }
    }

    /// The answer that the current candidate has behind the end of the attempts that an entry concerns, which meant
    /// this and came with these bytes or none, where a leg may spend so many attempts; or none, where it goes on.
    #[inline(always)]
    pub fn answer_behind(
        &self,
        alloc: Global,
        options: &Options,
        concerned: Concerned,
        judged: Judged,
        bytes: &[u8],
        most: u32,
    ) -> Result<Option<Answer>, NoMemory>
        ensures { IfOk result (λ answer. answer
            ≡ answer_behind options.now concerned judged bytes.now most self.now) }
    {
        let left = self
            .first
            .ended_behind(concerned, false, judged, bytes, most);
        let brought = if concerned.concerns(&self.first, false) {
            &[]
        } else {
            bytes
        };
        let right = match &self.second {
            None => None,
            Some(lookup) => lookup
                .lookup()
                .ended_behind(concerned, true, judged, brought, most),
        };
        answer_of(
            alloc,
            options,
            self.number,
            self.wanted,
            &self.first.question.name,
            left,
            right,
        )
    }

    /// Ends the attempts that an entry concerns, which meant this and came with this reply or none, where a leg may
    /// spend so many. It takes no memory.
    pub fn close(
        &mut self,
        alloc: Global,
        concerned: Concerned,
        judged: Judged,
        reply: Bytes,
        most: u32,
    )
        ensures { self.new ≡ lookups_behind concerned judged reply most self.old }
    {
        let (one, two) = if concerned.concerns(&self.first, false) {
            (reply, Bytes::new(alloc))
        } else {
            (Bytes::new(alloc), reply)
        };
        self.first.close(concerned, false, judged, one, most);
        if let Some(lookup) = &mut self.second {
            lookup.body.close(concerned, true, judged, two, most);
        }
    }

    /// The ticket of the request, whose last candidate has this answer. It takes no memory.
    #[inline(always)]
    pub fn into_ticket(self, answer: Answer) -> Ticket<T>
        ensures { result ≡ record {
          token = self.token;
          call = record answer { status = last_status self.empty answer.status };
        } }
    {
        let Row {
            empty,
            token,
            call,
            ..
        } = self;
        let mut answer = answer;
        answer.status = last_status(empty, answer.status);
        ticket_with(answer, token, call)
    }

    /// Whether the next candidate is asked, where the current one has ended with this status.
    pub fn has_next(&self, status: Status) -> bool
        ensures { result ≡ has_next status self.now }
    {
        goes_on(status) && !self.first.names.is_empty()
    }

    /// Asks the next candidate by this leg, where the current one has ended with this status. It takes no memory.
    pub fn ask_next(&mut self, alloc: Global, status: Status, leg: Leg)
        ensures { self.new ≡ next_row leg status self.old }
    {
        self.first.ask_next(alloc, leg);
        if let Some(lookup) = &mut self.second {
            lookup.body.ask_next(alloc, leg);
        }
        self.empty = self.empty || has_no_data(status);
    }
}

/// Whether a candidate that ended with this status makes the next one current.
fn goes_on(status: Status) -> bool
    ensures { result ≡ goes_on status }
{
    match status {
        Status::NoData | Status::ServFail | Status::NotFound => true,
        Status::Success
        | Status::FormErr
        | Status::NotImp
        | Status::Refused
        | Status::BadName
        | Status::BadResp
        | Status::ConnRefused
        | Status::TimedOut
        | Status::Destruction
        | Status::Cancelled => false,
    }
}

/// Whether the status is that of a name without a record of the kind.
fn has_no_data(status: Status) -> bool
    ensures { result ≡ same_status status statuses.NoData }
{
    match status {
        Status::NoData => true,
        Status::Success
        | Status::FormErr
        | Status::ServFail
        | Status::NotFound
        | Status::NotImp
        | Status::Refused
        | Status::BadName
        | Status::BadResp
        | Status::ConnRefused
        | Status::TimedOut
        | Status::Destruction
        | Status::Cancelled => false,
    }
}

/// The status of a request whose last candidate ended with this one, and another before it without data or not.
fn last_status(empty: bool, status: Status) -> Status
    ensures { result ≡ last_status empty status }
{
    if goes_on(status) && empty {
        Status::NoData
    } else {
        status
    }
}

/// The ticket of this request, which ended with this status and this reply, or none. It takes no memory.
pub fn ticket_of<T: Token>(
    alloc: Global,
    number: u64,
    status: Status,
    reply: Bytes,
    token: T,
    call: Call,
) -> Ticket<T>
    ensures { result ≡ record { token = token; call = bare number status reply } }
{
    ticket_with(bare_answer(alloc, number, status, reply), token, call)
}

/// The ticket with this answer. It takes no memory.
#[inline(always)]
pub fn ticket_with<T: Token>(answer: Answer, token: T, call: Call) -> Ticket<T>
    ensures { result ≡ record { token = token; call = answer } }
{
    let mut call = call;
    call.fill(answer);
    Ticket::of(token, call)
}
