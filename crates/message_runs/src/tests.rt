//! Examples from outside, as tables: a test hands each row to a function of its own, so that proofs stay small.
//!
//! An assertion in a loop over rows has no message, which would take a third of the proof. A row that fails is found by
//! leaving out the rows behind it.
mod asked_names;
mod cuts;
mod hostile;
mod messages;
mod mixing;
mod names;
mod opt_records;
mod pointers;
mod rdata;
mod records;
mod replies;

use dns_message::{Message, Name, Question, QuestionList, Record, RecordList};
use message_walk::Outline;
use std::alloc::Global;
use std::test::Fail;

/// A header with the flag QR and so many questions, and the bytes behind it.
fn message_of(alloc: Global, questions: u8, rest: &[u8]) -> Result<Vec<u8>, Fail> {
    let mut bytes = Vec::from_slice(alloc, &[0, 0, 0x80, 0, 0, questions, 0, 0, 0, 0, 0, 0])?;
    bytes.extend_from_slice(rest)?;
    Ok(bytes)
}

/// A message without flags and questions that has these answers.
fn with_answers(alloc: Global, answers: RecordList) -> Message {
    Message {
        id: 0,
        flags: 0,
        questions: QuestionList::new(alloc),
        answers,
        authorities: RecordList::new(alloc),
        additionals: RecordList::new(alloc),
    }
}

/// A message whose one answer is this record.
fn answer_of(alloc: Global, answer: Record) -> Result<Message, Fail> {
    let mut answers = RecordList::new(alloc);
    answers.push(answer)?;
    Ok(with_answers(alloc, answers))
}

/// The question for the IPv4 addresses of a name (RFC 1035, sections 3.2.2 and 3.2.4).
fn address_of(alloc: Global, name: &[u8]) -> Result<Question, Fail> {
    Ok(Question {
        name: Name::from_text(alloc, name)?.name,
        kind: 1,
        class: 1,
    })
}

/// What a message says that can be read.
fn says(answered: bool, extended: Option<u8>) -> Option<Outline> {
    Some(Outline { answered, extended })
}
