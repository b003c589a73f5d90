//! Accepting a request: what it comes to, and the room that its later entries need.

ghost use Rattle.std.specs.List.{AllByRecursion};
ghost use Rattle.std.specs.Prelude.{◌≡◌, ◌≢◌, ◌+◌, ◌*◌, ◌<◌, ◌≤◌, [], ◌∷◌, IfErr, IfOk, OnErr, OnOk, Ok, ◌^◌, length, map, option_map};
ghost use Rattle.std.specs.VecDeque.{deque_capacity, deque_len};
ghost use Rattle.channel_model.specs.Meanings.{Accepts};
ghost use Rattle.channel_table.specs.Opening.{AreAsked, Opens, OpensHost, OpensName, OpensText, itself, searched, with_second};
ghost use Rattle.channel_table.specs.Lookups.{new_lookup};
ghost use Rattle.channel_table.specs.Places.{Places};
ghost use Rattle.channel_table.specs.Rows.{number_of};
ghost use Rattle.addr_lookup.specs.Channels.{set_to};
ghost use Rattle.channel_model.specs.Seen.{Happens};
ghost use Rattle.channel_table.specs.Tokens.{KeepsToken, seen};

use super::Table;
use super::journal_room::room_for_entry;
use super::rows::Rows;
use crate::held_lookup::HeldLookup;
use crate::lookup::{Asked, Lookup};
use crate::row::{Row, ticket_of, ticket_with};
use crate::wanted::Wanted;
use addr_lookup::at_once;
use chan_types::{
    Answer, Bytes, Call, Entry, NoMemory, Refusal, Script, Spec, Status, Ticket, Token, What,
};
use channel_journal::ChannelJournal;
use channel_model::Refused;
use dns_message::numbers::{CLASS_IN, KIND_A, KIND_AAAA, KIND_PTR};
use dns_message::{Name, NameFault, NameList, NameText, Question};
use hosts_file::Hosts;
use net_addr::{Family, reverse_name};
use query_machine::Leg;
use resolv_options::{Options, candidates};
use std::alloc::Global;
use std::collections::VecDeque;

/// The last label of the names that aren't asked (RFC 7686, section 2).
const ONION: &[u8] = b"onion";

/// What a request comes to at its Accept: the question of its first candidate and the names of the others, and for
/// addresses of both families a second question; or at once its status; or at once its answer.
#[derive(Drop)]
pub enum Opening {
    Asks(Asked, Option<Asked>),
    Ends(Status),
    Answered(Answer),
}

/// What an accept needs, made before anything changes.
#[derive(Drop)]
struct Prepared {
    opening: Opening,
    script: Script,
    call: Call,
}

impl<T: Token, J: ChannelJournal> Table<T, J> {
    /// Accepts a request, and answers its number. A text that can't be asked is accepted too, and completes at once.
    pub fn accept(&mut self, seat: u64, by: u64, spec: Spec, token: T) -> Result<u64, Refused<T>>
        ensures done { Happens (Accepts T.plan spec token result) seat by (seen self.old) (seen self.new) }
        ensures tokens { KeepsToken token result self.old.tokens self.new.tokens }
    {
        if self.closed {
            return Err(Refused {
                why: Refusal::Closed,
                spec,
                token,
            });
        }
        let number = self.accepted + 1;
        let wanted = Wanted::of(&spec);
        let opening = opening_of(self.alloc, &self.options, &self.hosts, number, &spec);
        match prepare(
            self.alloc,
            opening,
            &mut self.journal,
            self.rows.len(),
            &mut self.ready,
            &token,
        ) {
            Ok(prepared) => {
                let Prepared {
                    opening,
                    script,
                    call,
                } = prepared;
                match place(
                    self.alloc,
                    &self.options,
                    &mut self.rows,
                    &mut self.ready,
                    opening,
                    number,
                    wanted,
                    token,
                    call,
                ) {
                    Ok(()) => {
                        self.journal.add(Entry {
                            seat,
                            by,
                            what: What::Accept {
                                number,
                                spec,
                                script,
                            },
                        });
                        self.accepted = number;
                        Ok(number)
                    }
                    Err(token) => Err(Refused {
                        why: Refusal::NoMemory,
                        spec,
                        token,
                    }),
                }
            }
            Err(NoMemory) => Err(Refused {
                why: Refusal::NoMemory,
                spec,
                token,
            }),
        }
    }
}

/// What an accept of a request that comes to this needs beside so many rows, if memory was found for it: room for its
/// entry, for those that its request may need, and for its ticket.
#[inline(always)]
fn prepare<T: Token, J: ChannelJournal>(
    alloc: Global,
    opening: Result<Opening, NoMemory>,
    journal: &mut J,
    rows: usize,
    ready: &mut VecDeque<Ticket<T>>,
    token: &T,
) -> Result<Prepared, NoMemory>
    requires room { 2 * rows + deque_len ready.old ≤ 2 ^ 63 }
    ensures opening { IfOk result (λ prepared. opening ≡ Ok prepared.opening) }
    ensures script { IfOk result (λ prepared. prepared.script ≡ T.plan token.now) }
    ensures room { OnOk result (2 * rows + deque_len ready.new + 4 ≤ J.room journal.new) }
    ensures fits { OnOk result
        (length (J.told journal.old) + (2 * rows + deque_len ready.new + 4) ≤ 2 ^ 63) }
    ensures room_ready { OnOk result (rows + deque_len ready.new + 1 ≤ deque_capacity ready.new) }
    ensures same { (J.told journal.new ≡ J.told journal.old) × (ready.new.items ≡ ready.old.items) }
    ensures len { deque_len ready.new ≡ deque_len ready.old }
    ensures capacities { (J.room journal.old ≤ J.room journal.new)
        × (deque_capacity ready.old ≤ deque_capacity ready.new) }
{
    let opening = opening?;
    let script = token.script().copy(alloc)?;
    let call = Call::make(alloc)?;
    ready.reserve(rows + 1)?;
    room_for_entry(journal, rows + 1, ready.len())?;
    Ok(Prepared {
        opening,
        script,
        call,
    })
}

/// Puts the request of this number, whose answer is made of this, among the pending ones, or among the ready ones. It
/// gives the token back where there is no memory.
#[inline(always)]
fn place<T: Token>(
    alloc: Global,
    options: &Options,
    rows: &mut Rows<T>,
    ready: &mut VecDeque<Ticket<T>>,
    opening: Opening,
    number: u64,
    wanted: Wanted,
    token: T,
    call: Call,
) -> Result<(), T>
    requires newer { AllByRecursion (λ n. n < number) (map number_of rows.old) }
    requires room_ready { length rows.old + deque_len ready.old + 1 ≤ deque_capacity ready.old }
    ensures places { OnOk result (Places options.now.flags number wanted token
        rows.old rows.new ready.old.items ready.new.items opening) }
    ensures most { OnOk result (length rows.new ≤ length rows.old + 1) }
    ensures len { OnOk result
        (length rows.new + deque_len ready.new ≡ length rows.old + deque_len ready.old + 1) }
    ensures err { OnErr result ((rows.new ≡ rows.old) × (ready.new ≡ ready.old)) }
    ensures back { IfErr result (λ given. given ≡ token) }
    ensures capacity { deque_capacity ready.new ≡ deque_capacity ready.old }
{
    let leg = Leg::new(options);
    match opening {
        Opening::Asks(first, second) => {
            let second = match second_lookup(alloc, number, second, leg) {
                Ok(second) => second,
                Err(NoMemory) => return Err(token),
            };
            let row = Row {
                number,
                wanted,
                empty: false,
                first: Lookup::new(alloc, number, wanted.first_number(), first, leg),
                second,
                token,
                call,
            };
            match rows.push(row) {
                Ok(()) => Ok(()),
                Err(row) => Err(row.token),
            }
        }
        Opening::Ends(status) => {
            ready.push_back_reserved(ticket_of(
                alloc,
                number,
                status,
                Bytes::new(alloc),
                token,
                call,
            ));
            Ok(())
        }
        Opening::Answered(answer) => {
            ready.push_back_reserved(ticket_with(answer, token, call));
            Ok(())
        }
    }
}

/// The second lookup of a new request, if it asks a second question.
fn second_lookup(
    alloc: Global,
    number: u64,
    asked: Option<Asked>,
    leg: Leg,
) -> Result<Option<HeldLookup>, NoMemory>
    ensures { IfOk result (λ lookup. lookup ≡ option_map (λ asked. new_lookup number 1 asked leg) asked) }
{
    match asked {
        Some(asked) => {
            let lookup = HeldLookup::of(alloc, Lookup::new(alloc, number, 1, asked, leg))?;
            Ok(Some(lookup))
        }
        None => Ok(None),
    }
}

/// What a request of this number asks, or how it ends at once.
#[inline(always)]
fn opening_of(
    alloc: Global,
    options: &Options,
    hosts: &Hosts,
    number: u64,
    spec: &Spec,
) -> Result<Opening, NoMemory>
    ensures { IfOk result (Opens (set_to options.now hosts.now) number spec.now) }
{
    match spec {
        Spec::Query { name, kind, class } => question_of(alloc, name.as_slice(), *kind, *class),
        Spec::Search { name, kind, class } => {
            search_of(alloc, options, name.as_slice(), *kind, *class)
        }
        Spec::Reverse { address } => {
            let question = Question {
                name: reverse_name(alloc, *address)?,
                kind: KIND_PTR,
                class: CLASS_IN,
            };
            let names = NameList::new(alloc);
            Ok(Opening::Asks(Asked { question, names }, None))
        }
        Spec::Address { host, family, .. } => match at_once(alloc, spec, number, options, hosts)? {
            Some(answer) => Ok(Opening::Answered(answer)),
            None => addresses_of(alloc, options, host.as_slice(), *family),
        },
    }
}

/// What the name of a host comes to whose addresses of this family are asked for.
fn addresses_of(
    alloc: Global,
    options: &Options,
    host: &[u8],
    family: Family,
) -> Result<Opening, NoMemory>
    ensures { IfOk result (OpensHost options.now host.now family) }
{
    match family {
        Family::Any => {
            let opening = search_of(alloc, options, host, KIND_A, CLASS_IN)?;
            with_second(alloc, opening)
        }
        Family::V4 => search_of(alloc, options, host, KIND_A, CLASS_IN),
        Family::V6 => search_of(alloc, options, host, KIND_AAAA, CLASS_IN),
    }
}

/// What the name of a host comes to whose addresses of both families are asked for, by what it comes to for A records.
fn with_second(alloc: Global, opening: Opening) -> Result<Opening, NoMemory>
    ensures { IfOk result (λ both. both ≡ with_second opening) }
{
    match opening {
        Opening::Asks(first, _) => {
            let second = first.with_kind(alloc, KIND_AAAA)?;
            Ok(Opening::Asks(first, Some(second)))
        }
        Opening::Ends(status) => Ok(Opening::Ends(status)),
        Opening::Answered(answer) => Ok(Opening::Answered(answer)),
    }
}

/// What a text comes to that is asked for as it stands.
#[inline(always)]
fn question_of(alloc: Global, text: &[u8], kind: u16, class: u16) -> Result<Opening, NoMemory>
    ensures { IfOk result (OpensText itself text.now kind class) }
{
    match Name::from_text(alloc, text) {
        Ok(text) => Ok(opening_for(alloc, text.name, kind, class)),
        Err(NameFault::NoMemory) => Err(NoMemory),
        Err(_) => Ok(Opening::Ends(Status::BadName)),
    }
}

/// What a name comes to that is asked for alone.
#[inline(always)]
fn opening_for(alloc: Global, name: Name, kind: u16, class: u16) -> Opening
    ensures { OpensName (name ∷ []) name kind class result }
{
    if name.last_is(ONION) {
        Opening::Ends(Status::NotFound)
    } else {
        let question = Question { name, kind, class };
        let names = NameList::new(alloc);
        Opening::Asks(Asked { question, names }, None)
    }
}

/// What a text comes to for which the candidates by the search list are asked for.
fn search_of(
    alloc: Global,
    options: &Options,
    text: &[u8],
    kind: u16,
    class: u16,
) -> Result<Opening, NoMemory>
    ensures { IfOk result (OpensText (searched options.now) text.now kind class) }
{
    match Name::from_text(alloc, text) {
        Ok(text) => opening_by(alloc, options, &text, kind, class),
        Err(NameFault::NoMemory) => Err(NoMemory),
        Err(_) => Ok(Opening::Ends(Status::BadName)),
    }
}

/// What a name comes to for which its candidates are asked for.
fn opening_by(
    alloc: Global,
    options: &Options,
    text: &NameText,
    kind: u16,
    class: u16,
) -> Result<Opening, NoMemory>
    ensures { IfOk result (OpensName (searched options.now text.now) text.now.name kind class) }
{
    if text.name.last_is(ONION) {
        return Ok(Opening::Ends(Status::NotFound));
    }
    let names = candidates(alloc, text, options)?;
    Ok(first_asked(names, kind, class))
}

/// The names are asked for, one after the other. It takes no memory.
fn first_asked(names: NameList, kind: u16, class: u16) -> Opening
    requires { names ≢ [] }
    ensures { AreAsked names kind class result }
{
    let mut rest = names.into_vec();
    let name = rest.remove(0);
    let question = Question { name, kind, class };
    let names = NameList::from_vec(rest);
    Opening::Asks(Asked { question, names }, None)
}
