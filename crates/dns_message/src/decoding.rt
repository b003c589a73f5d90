//! Reading a message: its header, its questions and its three sections of records, once from the left
//! (RFC 1035, section 4.1).

ghost use Rattle.std.specs.Prelude.{◌≡◌, ◌≢◌, ℕ, List, ◌+◌, ◌-◌, ◌<◌, ◌≤◌, Ok, Err, length, slice_get, IfOk, IfErr, IfSome, MatchResult};
ghost use Rattle.dns_message.specs.Grammar.{Spells, SpellsNothing};
ghost use Rattle.dns_message.specs.Message.{IsMessage};
ghost use Rattle.dns_message.specs.MessageFaults.{FirstFault};
ghost use Rattle.dns_message.specs.Pointers.{PointsTo, StandsAt};
ghost use Rattle.dns_message.specs.Validity.{IsValid};
ghost use Rattle.dns_message.specs.Reading.{Gives, name_of, question_of, record_of, items_of, message_read};

use crate::fault::MessageFault;
use crate::fields::{part_at, u16_in, u32_in};
use crate::message::{Message, Question, QuestionList, Record, RecordList};
use crate::name::Name;
use crate::name_reading::name_at;
use crate::rdata::rdata_at;
use crate::shape::shape_of;
use item_list::ItemList;
use std::alloc::Global;

/// The length of a header.
const HEADER_LEN: usize = 12;

/// The least length of a question: the root, kind and class.
const QUESTION_LEAST: usize = 5;

/// The least length of a record: the root, its ten fixed bytes, and no rdata.
const RECORD_LEAST: usize = 11;

/// The question at an offset, and the offset behind it.
#[tactic(auto, unfolding(crate::specs::Reading::question_of))]
fn question_at(alloc: Global, bytes: &[u8], at: usize) -> Result<(Question, usize), MessageFault>
    requires { at ≤ length bytes.now }
    ensures read { Gives result (question_of bytes.now at) }
    ensures end { IfOk result (λ found. found.1 ≤ length bytes.now) }
{
    let (name, fixed_at) = name_at(alloc, bytes, at)?;
    let fixed = part_at(bytes, fixed_at, 4)?;
    let question = Question {
        name,
        kind: u16_in(fixed, 0),
        class: u16_in(fixed, 2),
    };
    Ok((question, fixed_at + 4))
}

/// A name that was read, and the place where its labels begin.
#[derive(Clone, Copy)]
struct Known<'a> {
    place: usize,
    name: &'a Name,
}

/// The owner of a record: its name, the offset behind its own bytes, and the place where its labels begin.
#[derive(Drop)]
struct Owner {
    name: Name,
    next: usize,
    place: usize,
}

/// A record that was read, the offset behind it, and the place where its owner's labels begin.
#[derive(Drop)]
struct Found {
    item: Record,
    next: usize,
    place: usize,
}

/// The place where the labels of the name at an offset begin: where its pointer leads, or the offset itself.
fn labels_start(bytes: &[u8], at: usize) -> usize
    requires { at ≤ length bytes.now }
    ensures { result ≢ at → PointsTo bytes.now at result }
{
    if bytes.len() - at >= 2 && bytes[at] >= 192 {
        let target = (bytes[at] as usize - 192) * 256 + bytes[at + 1] as usize;
        if target < at {
            return target;
        }
    }
    at
}

/// The owner at an offset. Most records of an answer point to a name that was just read, which is copied and not
/// read again.
fn owner_at(
    alloc: Global,
    bytes: &[u8],
    at: usize,
    known: Option<Known<'_>>,
) -> Result<Owner, MessageFault>
    requires at { at ≤ length bytes.now }
    requires known { IfSome known (λ known. StandsAt bytes.now known.place known.name.now) }
    ensures read { MatchResult result
        (λ owner. name_of bytes.now at ≡ Ok (owner.name, owner.next))
        (λ fault. fault ≢ MessageFault.NoMemory → name_of bytes.now at ≡ Err fault) }
    ensures within { IfOk result (λ owner. (at < owner.next) × (owner.next ≤ length bytes.now)) }
    ensures stands { IfOk result (λ owner. StandsAt bytes.now owner.place owner.name) }
{
    let place = labels_start(bytes, at);
    if let Some(known) = known {
        if place != at && place == known.place {
            let name = known.name.copy(alloc)?;
            return Ok(Owner {
                name,
                next: at + 2,
                place,
            });
        }
    }
    let (name, next) = name_at(alloc, bytes, at)?;
    Ok(Owner { name, next, place })
}

/// The record at an offset.
#[tactic(auto, unfolding(crate::specs::Reading::record_of))]
fn record_at(
    alloc: Global,
    bytes: &[u8],
    at: usize,
    known: Option<Known<'_>>,
) -> Result<Found, MessageFault>
    requires at { at ≤ length bytes.now }
    requires known { IfSome known (λ known. StandsAt bytes.now known.place known.name.now) }
    ensures read { MatchResult result
        (λ found. record_of bytes.now at ≡ Ok (found.item, found.next))
        (λ fault. fault ≢ MessageFault.NoMemory → record_of bytes.now at ≡ Err fault) }
    ensures end { IfOk result (λ found. found.next ≤ length bytes.now) }
    ensures stands { IfOk result (λ found. StandsAt bytes.now found.place found.item.name) }
{
    let owner = owner_at(alloc, bytes, at, known)?;
    let (place, fixed_at) = (owner.place, owner.next);
    let fixed = part_at(bytes, fixed_at, 10)?;
    let (kind, class) = (u16_in(fixed, 0), u16_in(fixed, 2));
    let ttl = u32_in(fixed, 4);
    let len = u16_in(fixed, 8) as usize;
    let rdata_start = fixed_at + 10;
    part_at(bytes, rdata_start, len)?;
    let rdata = rdata_at(alloc, bytes, rdata_start, len, shape_of(kind, class))?;
    let item = Record {
        name: owner.name,
        kind,
        class,
        ttl,
        rdata,
    };
    Ok(Found {
        item,
        next: rdata_start + len,
        place,
    })
}

/// So many questions from an offset on, and the offset behind them.
fn questions_at(
    alloc: Global,
    bytes: &[u8],
    at: usize,
    count: u16,
) -> Result<(QuestionList, usize), MessageFault>
    requires { at ≤ length bytes.now }
    ensures end { IfOk result (λ found. found.1 ≤ length bytes.now) }
    ensures count { IfOk result (λ found. length found.0 ≡ count) }
    ensures read { Gives result (items_of (question_of bytes.now) count at) }
{
    let room = (bytes.len() - at) / QUESTION_LEAST;
    let mut questions = Vec::with_capacity(alloc, room.min(count as usize))?;
    let mut next = at;
    for _ in 0..count {
        let (question, after) = question_at(alloc, bytes, next)?;
        questions.push(question)?;
        next = after;
    }
    Ok((ItemList::from_vec(questions), next))
}

/// The name that was read last: the last record's owner, whose labels begin at a place, or the one before all records.
fn last_read<'a>(records: &'a [Record], place: usize, first: Option<Known<'a>>) -> Option<Known<'a>>
    ensures { (bytes : List ℕ)
        → IfSome first.entry (λ known. StandsAt bytes known.place known.name.now)
        → IfSome (slice_get records.now (length records.now - 1)) (λ last. StandsAt bytes place last.name)
        → IfSome result (λ known. StandsAt bytes known.place known.name.now) }
{
    match records.last() {
        Some(last) => Some(Known {
            place,
            name: &last.name,
        }),
        None => first,
    }
}

/// So many records from an offset on, and the offset behind them. A name may be known before.
fn records_at(
    alloc: Global,
    bytes: &[u8],
    at: usize,
    count: u16,
    first: Option<Known<'_>>,
) -> Result<(RecordList, usize), MessageFault>
    requires at { at ≤ length bytes.now }
    requires first { IfSome first (λ known. StandsAt bytes.now known.place known.name.now) }
    ensures end { IfOk result (λ found. found.1 ≤ length bytes.now) }
    ensures count { IfOk result (λ found. length found.0 ≡ count) }
    ensures read { Gives result (items_of (record_of bytes.now) count at) }
{
    let room = (bytes.len() - at) / RECORD_LEAST;
    let mut records = Vec::with_capacity(alloc, room.min(count as usize))?;
    let mut next = at;
    let mut place = at;
    for _ in 0..count {
        let known = last_read(records.as_slice(), place, first);
        let found = record_at(alloc, bytes, next, known)?;
        records.push(found.item)?;
        next = found.next;
        place = found.place;
    }
    Ok((ItemList::from_vec(records), next))
}

/// The message that the bytes spell, all of the bytes; or the first fault in reading order, with its offset.
#[tactic(auto, using(crate::proofs::GrammarLemmas::given_is_spelled, crate::proofs::GrammarLemmas::refused_spells_nothing, crate::proofs::FirstFaultLemmas::given_is_first))]
pub fn decode(alloc: Global, bytes: &[u8]) -> Result<Message, MessageFault>
    ensures spelled { IfOk result (λ message. Spells bytes.now message) }
    ensures valid { IfOk result (λ message. IsValid message) }
    ensures typed { IfOk result (λ message. IsMessage message) }
    ensures refused { IfErr result (λ fault. fault ≢ MessageFault.NoMemory → SpellsNothing bytes.now) }
    ensures first { IfErr result (λ fault. fault ≢ MessageFault.NoMemory → FirstFault bytes.now fault) }
    ensures read { Gives result (message_read bytes.now) }
    ensures questions { IfOk result (λ message. length message.questions < 65536) }
    ensures answers { IfOk result (λ message. length message.answers < 65536) }
    ensures authorities { IfOk result (λ message. length message.authorities < 65536) }
    ensures additionals { IfOk result (λ message. length message.additionals < 65536) }
{
    message_in(alloc, bytes)
}

/// The name of the one question, which begins behind the header.
#[tactic(auto, unfolding(crate::specs::Reading::question_of))]
fn question_name(questions: &[Question]) -> Option<Known<'_>>
    ensures { (bytes : List ℕ) (count next : ℕ)
        → items_of (question_of bytes) count 12 ≡ Ok (questions.now, next)
        → IfSome result (λ known. StandsAt bytes known.place known.name.now) }
{
    match questions {
        [question] => Some(Known {
            place: HEADER_LEN,
            name: &question.name,
        }),
        _ => None,
    }
}

/// Reads the header and the four sections.
#[tactic(auto, unfolding(crate::specs::Reading::message_read))]
fn message_in(alloc: Global, bytes: &[u8]) -> Result<Message, MessageFault>
    ensures read { Gives result (message_read bytes.now) }
    ensures questions { IfOk result (λ message. length message.questions < 65536) }
    ensures answers { IfOk result (λ message. length message.answers < 65536) }
    ensures authorities { IfOk result (λ message. length message.authorities < 65536) }
    ensures additionals { IfOk result (λ message. length message.additionals < 65536) }
{
    if bytes.len() < HEADER_LEN {
        return Err(MessageFault::ShortHeader);
    }
    let (questions, at) = questions_at(alloc, bytes, HEADER_LEN, u16_in(bytes, 4))?;
    let first = question_name(questions.as_slice());
    let (answers, at) = records_at(alloc, bytes, at, u16_in(bytes, 6), first)?;
    let (authorities, at) = records_at(alloc, bytes, at, u16_in(bytes, 8), first)?;
    let (additionals, at) = records_at(alloc, bytes, at, u16_in(bytes, 10), first)?;
    if at < bytes.len() {
        return Err(MessageFault::TrailingBytes(at as u64));
    }
    Ok(Message {
        id: u16_in(bytes, 0),
        flags: u16_in(bytes, 2),
        questions,
        answers,
        authorities,
        additionals,
    })
}
