//! A reply read whole: the message that answers a query.

ghost use Rattle.std.specs.Prelude.{◌≡◌, if◌then◌else◌, Some, IfOk, option_map};
ghost use Rattle.channel_model.specs.Flight.{answer_to, answers, asks_only, repeats, equal_name};
ghost use Rattle.channel_model.specs.Replies.{read_reply, reply_with};
ghost use Rattle.edns_opt.specs.Reading.{opt_of};
ghost use Rattle.dns_message.specs.Name.{same_name};
ghost use Rattle.query_machine.specs.Replies.{reply_seen};

use crate::replies::{is_response, is_standard, may_answer};
use dns_message::{Message, MessageFault, Name, Question, decode};
use edns_opt::{EdnsFault, Opt, find};
use item_list::NoMemory;
use std::alloc::Global;

/// A message that answers a query, and what its OPT record says if it has one.
#[derive(Debug, Drop)]
pub struct Reply {
    pub message: Message,
    pub opt: Option<Opt>,
}

/// What the bytes say, where they answer the query of this identifier for this question: they are a message that is a
/// response to a standard query (RFC 1035, section 4.1.1: QR 1, OPCODE 0), with the identifier and this question alone,
/// and its OPT record, if it has one, can be read. The question's name agrees byte for byte where `exact` is set, else
/// ignoring ASCII case.
pub fn matching(
    alloc: Global,
    bytes: &[u8],
    id: u16,
    asked: &Question,
    exact: bool,
) -> Result<Option<Reply>, NoMemory>
    ensures { IfOk result (λ found. option_map reply_seen found
        ≡ answer_to id exact (Some asked.now) bytes.now) }
{
    // Most strays show in the header, which costs no memory to read.
    if !may_answer(bytes, id) {
        return Ok(None);
    }
    let Some(reply) = read(alloc, bytes)? else {
        return Ok(None);
    };
    if answers(&reply.message, id, asked, exact) {
        Ok(Some(reply))
    } else {
        Ok(None)
    }
}

/// What the bytes say, or nothing where they are no message or their OPT record can't be read.
fn read(alloc: Global, bytes: &[u8]) -> Result<Option<Reply>, NoMemory>
    ensures { IfOk result (λ found. option_map reply_seen found ≡ read_reply bytes.now) }
{
    match decode(alloc, bytes) {
        Ok(message) => with_opt_read(alloc, message),
        Err(MessageFault::NoMemory) => Err(NoMemory),
        Err(_) => Ok(None),
    }
}

/// The message with what its OPT record says, or nothing where that can't be read.
fn with_opt_read(alloc: Global, message: Message) -> Result<Option<Reply>, NoMemory>
    ensures { IfOk result (λ found. option_map reply_seen found ≡ reply_with message (opt_of message)) }
{
    match find(alloc, &message) {
        Ok(opt) => Ok(Some(Reply { message, opt })),
        Err(EdnsFault::NoMemory) => Err(NoMemory),
        Err(EdnsFault::DoubleOpt | EdnsFault::BadOptions(_)) => Ok(None),
    }
}

/// The message is a response to a standard query with this identifier and this one question.
fn answers(message: &Message, id: u16, asked: &Question, exact: bool) -> bool
    ensures { result ≡ answers id exact (Some asked.now) message.now }
{
    message.id == id
        && is_response(message.flags)
        && is_standard(message.flags)
        && asks_only(message.questions.as_slice(), asked, exact)
}

/// The list has this question alone.
fn asks_only(questions: &[Question], asked: &Question, exact: bool) -> bool
    ensures { result ≡ asks_only exact (Some asked.now) questions.now }
{
    match questions {
        [only] => repeats(only, asked, exact),
        _ => false,
    }
}

/// The question is the one that was asked.
fn repeats(question: &Question, asked: &Question, exact: bool) -> bool
    ensures { result ≡ repeats exact question.now asked.now }
{
    is_name(&question.name, &asked.name, exact)
        && question.kind == asked.kind
        && question.class == asked.class
}

/// The names agree, byte for byte or ignoring ASCII case.
fn is_name(name: &Name, asked: &Name, exact: bool) -> bool
    ensures { result ≡ (if exact then equal_name name.now asked.now else same_name name.now asked.now) }
{
    if exact {
        name.equal(asked)
    } else {
        name.same(asked)
    }
}
