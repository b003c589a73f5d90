//! What a nameserver is asked by a message.

ghost use Rattle.std.specs.Prelude.{◌≡◌, IfOk};
ghost use Rattle.test_nameserver.specs.Query as meaning;

use dns_message::{Message, MessageFault, Question, QuestionList, decode};
use edns_opt::{EdnsFault, Opt, find};
use item_list::NoMemory;
use std::alloc::Global;

/// A query, as far as a nameserver looks at it.
#[derive(Debug, Drop)]
pub struct Query {
    pub id: u16,
    pub flags: u16,
    pub question: Question,
    /// The largest datagram that its sender takes, if it has an OPT record (RFC 6891, section 6.2.3).
    pub size: Option<u16>,
}

/// The query that bytes are. There is none where they are no message, or one with the bit QR, without just one question
/// or with OPT records that can't be read.
pub(crate) fn query_in(alloc: Global, bytes: &[u8]) -> Result<Option<Query>, NoMemory>
    ensures { IfOk result (λ query. query ≡ meaning.asked_by bytes.now) }
{
    match decode(alloc, bytes) {
        Ok(message) => query_of(alloc, message),
        Err(MessageFault::NoMemory) => Err(NoMemory),
        Err(
            MessageFault::ShortHeader
            | MessageFault::ShortPart(_)
            | MessageFault::BadLabel(_)
            | MessageFault::BadPointer(_)
            | MessageFault::LongName(_)
            | MessageFault::BadRdata(_)
            | MessageFault::TrailingBytes(_),
        ) => Ok(None),
    }
}

/// The query that a message is.
fn query_of(alloc: Global, message: Message) -> Result<Option<Query>, NoMemory>
    ensures { IfOk result (λ query. query ≡ meaning.query_in message) }
{
    // The bit QR, the highest of 16.
    if message.flags >> 15 == 1 {
        return Ok(None);
    }
    match find(alloc, &message) {
        Ok(opt) => Ok(query_with(message, opt)),
        Err(EdnsFault::NoMemory) => Err(NoMemory),
        Err(EdnsFault::DoubleOpt | EdnsFault::BadOptions(_)) => Ok(None),
    }
}

/// The query of a message with this OPT record.
fn query_with(message: Message, opt: Option<Opt>) -> Option<Query>
    ensures { result ≡ meaning.query_with message opt }
{
    let question = only_question(message.questions)?;
    Some(Query {
        id: message.id,
        flags: message.flags,
        question,
        size: opt.map(|found| found.size),
    })
}

/// The one question of some.
fn only_question(questions: QuestionList) -> Option<Question>
    ensures { result ≡ meaning.only_question questions }
{
    let mut questions = questions.into_vec();
    if questions.len() != 1 {
        return None;
    }
    questions.pop()
}
