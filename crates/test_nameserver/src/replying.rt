//! The reply of a nameserver to a query.

ghost use Rattle.std.specs.Prelude.{◌≡◌, ◌<◌, ◌≤◌, [], ◌∷◌, length, true, IfOk};
ghost use Rattle.dns_message.specs.Spelling.{message_bytes};
ghost use Rattle.test_nameserver.specs.Reply as meaning;

use crate::answering::add_answers;
use crate::query::{Query, query_in};
use crate::zone::Zone;
use dns_message::numbers::{
    FLAG_AA, FLAG_QR, FLAG_RA, FLAG_RD, FLAG_TC, FLAGS_OPCODE, RCODE_NAME_ERROR, RCODE_NO_ERROR,
    RCODE_NOT_IMPLEMENTED,
};
use dns_message::{EncodeFault, Message, Question, QuestionList, RecordList, encode};
use edns_opt::{Opt, OptionList, with_opt};
use item_list::{Bytes, NoMemory};
use std::alloc::Global;

/// The flags of every reply: QR, AA and RA (RFC 1035, section 4.1.1).
const REPLY: u16 = FLAG_QR + FLAG_AA + FLAG_RA;

/// The lowest of the four bits that tell the kind of query, 0 for a standard one (RFC 1035, section 4.1.1).
const OPCODE: u16 = FLAGS_OPCODE / 15;

/// The most CNAME records that are followed (this project's profile).
const ALIASES_MOST: u8 = 8;

/// The largest datagram that is taken, as the replies' OPT records say (this project's profile).
const OWN_SIZE: u16 = 1232;

/// The most bytes of a datagram without an OPT record (RFC 1035, section 2.3.4).
const DATAGRAM_MOST: u16 = 512;

/// The most bytes of a message over TCP (RFC 1035, section 4.2.2).
const MESSAGE_MOST: u16 = 65_535;

/// Whether the query's OPCODE is 0.
fn is_standard(query: &Query) -> bool
    ensures { result ≡ meaning.is_standard query.now }
{
    query.flags / OPCODE % 16 == 0
}

/// The response code.
fn rcode_for(alloc: Global, zone: &Zone, query: &Query) -> Result<u16, NoMemory>
    ensures code { IfOk result (λ rcode. rcode ≡ meaning.rcode_for zone.now query.now) }
    ensures short { IfOk result (λ rcode. rcode < 16) }
{
    if !is_standard(query) {
        return Ok(RCODE_NOT_IMPLEMENTED);
    }
    if zone.records_of(alloc, &query.question.name)?.is_empty() {
        return Ok(RCODE_NAME_ERROR);
    }
    Ok(RCODE_NO_ERROR)
}

/// The answers.
fn answers_for(alloc: Global, zone: &Zone, query: &Query) -> Result<RecordList, NoMemory>
    ensures { IfOk result (λ answers. answers ≡ meaning.answers_for zone.now query.now) }
{
    let mut answers = RecordList::new(alloc);
    if is_standard(query) {
        add_answers(
            alloc,
            &mut answers,
            zone,
            query.question.kind,
            ALIASES_MOST,
            &query.question.name,
        )?;
    }
    Ok(answers)
}

/// The flags of a reply.
fn reply_flags(asked: u16, cut: bool, rcode: u16) -> u16
    requires { rcode < 16 }
    ensures { result ≡ meaning.reply_flags asked cut rcode }
{
    let desired = asked / FLAG_RD % 2 * FLAG_RD;
    REPLY + desired + if cut { FLAG_TC } else { 0 } + rcode
}

/// The question of a query again.
fn questions_of(alloc: Global, asked: &Question) -> Result<QuestionList, NoMemory>
    ensures { IfOk result (λ questions. questions ≡ asked.now ∷ []) }
{
    let mut questions = QuestionList::new(alloc);
    questions.push(Question {
        name: asked.name.copy(alloc)?,
        kind: asked.kind,
        class: asked.class,
    })?;
    Ok(questions)
}

/// The reply with these flags and answers.
fn reply_with(
    alloc: Global,
    query: &Query,
    flags: u16,
    answers: RecordList,
) -> Result<Message, NoMemory>
    ensures { IfOk result (λ reply. reply ≡ meaning.reply_with query.now flags answers) }
{
    let reply = Message {
        id: query.id,
        flags,
        questions: questions_of(alloc, &query.question)?,
        answers,
        authorities: RecordList::new(alloc),
        additionals: RecordList::new(alloc),
    };
    match query.size {
        None => Ok(reply),
        Some(_) => with_opt(alloc, reply, &own_opt(alloc)),
    }
}

/// What the OPT record of a reply says.
fn own_opt(alloc: Global) -> Opt
    ensures { result ≡ meaning.own_opt }
{
    Opt {
        size: OWN_SIZE,
        ext_rcode: 0,
        version: 0,
        do_bit: false,
        options: OptionList::new(alloc),
    }
}

/// The most bytes of a reply.
fn most_bytes(tcp: bool, size: Option<u16>) -> usize
    ensures value { result ≡ meaning.most_bytes tcp size }
    ensures short { result ≤ 65535 }
{
    let most = match size {
        _ if tcp => MESSAGE_MOST,
        None => DATAGRAM_MOST,
        Some(size) => size.max(DATAGRAM_MOST),
    };
    most as usize
}

/// The reply without its answers, on the wire. It always fits.
fn cut_reply(alloc: Global, query: &Query, rcode: u16) -> Result<Bytes, NoMemory>
    requires { rcode < 16 }
    ensures value { IfOk result (λ bytes. bytes ≡ message_bytes
        (meaning.reply_with query.now (meaning.reply_flags query.now.flags true rcode) [])) }
    ensures short { IfOk result (λ bytes. length bytes ≤ 65535) }
{
    let flags = reply_flags(query.flags, true, rcode);
    let short = query.question.name.wire_len() <= 255;
    prove!(short);
    let reply = reply_with(alloc, query, flags, RecordList::new(alloc))?;
    match encode(alloc, &reply) {
        Ok(bytes) => Ok(bytes),
        Err(EncodeFault::NoMemory) => Err(NoMemory),
        Err(EncodeFault::TooLong) => unreachable!(),
    }
}

/// The reply on the wire.
pub(crate) fn reply_bytes(
    alloc: Global,
    zone: &Zone,
    query: &Query,
    tcp: bool,
) -> Result<Bytes, NoMemory>
    ensures value { IfOk result (λ bytes. bytes ≡ meaning.reply_bytes zone.now query.now tcp) }
    ensures short { IfOk result (λ bytes. length bytes ≤ 65535) }
{
    let rcode = rcode_for(alloc, zone, query)?;
    let answers = answers_for(alloc, zone, query)?;
    let flags = reply_flags(query.flags, false, rcode);
    let whole = reply_with(alloc, query, flags, answers)?;
    let most = most_bytes(tcp, query.size);
    match encode(alloc, &whole) {
        Ok(bytes) if bytes.len() <= most => Ok(bytes),
        Ok(_) | Err(EncodeFault::TooLong) => cut_reply(alloc, query, rcode),
        Err(EncodeFault::NoMemory) => Err(NoMemory),
    }
}

/// The reply of a zone's nameserver to a message. There is none to what is no query (RFC 1035, section 4.1): bytes that
/// are no message, a response, another number of questions than one, or OPT records that can't be read.
pub fn answer(
    alloc: Global,
    zone: &Zone,
    query: &[u8],
    tcp: bool,
) -> Result<Option<Bytes>, NoMemory>
    ensures { IfOk result (λ reply. reply ≡ meaning.reply_to zone.now query.now tcp) }
{
    match query_in(alloc, query)? {
        Some(query) => Ok(Some(reply_bytes(alloc, zone, &query, tcp)?)),
        None => Ok(None),
    }
}
