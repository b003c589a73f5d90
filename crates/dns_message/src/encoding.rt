//! Writing a message, each name without pointers (RFC 1035, section 4.1).

ghost use Rattle.std.specs.Prelude.{◌≡◌, ◌+◌, ◌<◌, ◌≤◌, ◌++◌, length, Ok, IfOk, IfErr, OnOk, MatchOption};
ghost use Rattle.std.specs.List.{flat_map, AllByRecursion};
ghost use Rattle.dns_message.specs.Message.{IsQuestion, IsRecord, HasTypedHeader, HasTypedSections};
ghost use Rattle.dns_message.specs.Reading.{message_read};
ghost use Rattle.dns_message.specs.Validity.{IsValid};
ghost use Rattle.dns_message.specs.Spelling.{question_bytes, record_bytes, header_bytes, sections_bytes, message_bytes};
ghost use Rattle.byteorder.specs.Endian.{big_bytes};

use crate::fault::EncodeFault;
use crate::fields::{put_name, put_u16, put_u32};
use crate::message::{Message, Question, Record};
use item_list::{Bytes, NoMemory};
use std::alloc::Global;

/// The most bytes of a message (RFC 1035, section 4.2.2).
const MESSAGE_MOST: usize = 65_535;

/// The length of a header.
const HEADER_LEN: usize = 12;

/// The size with the questions added, while that is no more than a message may have.
fn with_questions(size: usize, questions: &[Question]) -> Option<usize>
    requires { size ≤ 65535 }
    ensures { MatchOption result (65535 < size + length (flat_map question_bytes questions.now))
        (λ total. (total ≡ size + length (flat_map question_bytes questions.now)) × (total ≤ 65535)) }
{
    let mut total = size;
    for question in questions {
        total += question.name.wire_len() + 4;
        if total > MESSAGE_MOST {
            return None;
        }
    }
    Some(total)
}

/// The size with the records added, while that is no more than a message may have.
fn with_records(size: usize, records: &[Record]) -> Option<usize>
    requires { size ≤ 65535 }
    ensures { MatchOption result (65535 < size + length (flat_map record_bytes records.now))
        (λ total. (total ≡ size + length (flat_map record_bytes records.now)) × (total ≤ 65535)) }
{
    let mut total = size;
    for item in records {
        if item.rdata.len() > MESSAGE_MOST {
            return None;
        }
        total += item.name.wire_len() + 10 + item.rdata.len();
        if total > MESSAGE_MOST {
            return None;
        }
    }
    Some(total)
}

/// How many bytes the message takes, if no more than a message may have.
fn size_of_message(message: &Message) -> Option<usize>
    ensures { MatchOption result (65535 < length (message_bytes message.now))
        (λ size. (size ≡ length (message_bytes message.now)) × (size ≤ 65535)) }
{
    let size = with_questions(HEADER_LEN, message.questions.as_slice())?;
    let size = with_records(size, message.answers.as_slice())?;
    let size = with_records(size, message.authorities.as_slice())?;
    with_records(size, message.additionals.as_slice())
}

/// Writes a count or a length of 16 bits.
fn put_len(out: &mut Vec<u8>, len: usize) -> Result<(), NoMemory>
    requires { len ≤ 65535 }
    ensures { OnOk result (out.new.items ≡ out.old.items ++ big_bytes 2 len) }
{
    put_u16(out, len as u16)
}

/// Writes a question.
fn put_question(out: &mut Vec<u8>, question: &Question) -> Result<(), NoMemory>
    ensures put { OnOk result (out.new.items ≡ out.old.items ++ question_bytes question.now) }
    ensures typed { OnOk result (IsQuestion question.now) }
{
    put_name(out, &question.name)?;
    put_u16(out, question.kind)?;
    put_u16(out, question.class)
}

/// Writes a record.
fn put_record(out: &mut Vec<u8>, item: &Record) -> Result<(), NoMemory>
    requires { length (record_bytes item.now) ≤ 65535 }
    ensures put { OnOk result (out.new.items ≡ out.old.items ++ record_bytes item.now) }
    ensures typed { OnOk result (IsRecord item.now) }
{
    put_name(out, &item.name)?;
    put_u16(out, item.kind)?;
    put_u16(out, item.class)?;
    put_u32(out, item.ttl)?;
    put_len(out, item.rdata.len())?;
    out.extend_from_slice(item.rdata.as_slice())?;
    Ok(())
}

/// Writes questions.
fn put_questions(out: &mut Vec<u8>, questions: &[Question]) -> Result<(), NoMemory>
    ensures put { OnOk result (out.new.items ≡ out.old.items ++ flat_map question_bytes questions.now) }
    ensures typed { OnOk result (AllByRecursion IsQuestion questions.now) }
{
    for question in questions {
        put_question(out, question)?;
    }
    Ok(())
}

/// Writes records.
fn put_records(out: &mut Vec<u8>, records: &[Record]) -> Result<(), NoMemory>
    requires { length (flat_map record_bytes records.now) ≤ 65535 }
    ensures put { OnOk result (out.new.items ≡ out.old.items ++ flat_map record_bytes records.now) }
    ensures typed { OnOk result (AllByRecursion IsRecord records.now) }
{
    for item in records {
        put_record(out, item)?;
    }
    Ok(())
}

/// Writes the header.
fn put_header(out: &mut Vec<u8>, message: &Message) -> Result<(), NoMemory>
    requires { length (message_bytes message.now) ≤ 65535 }
    ensures put { OnOk result (out.new.items ≡ out.old.items ++ header_bytes message.now) }
    ensures typed { OnOk result (HasTypedHeader message.now) }
{
    put_u16(out, message.id)?;
    put_u16(out, message.flags)?;
    put_len(out, message.questions.len())?;
    put_len(out, message.answers.len())?;
    put_len(out, message.authorities.len())?;
    put_len(out, message.additionals.len())
}

/// Writes the sections.
fn put_sections(out: &mut Vec<u8>, message: &Message) -> Result<(), NoMemory>
    requires { length (message_bytes message.now) ≤ 65535 }
    ensures put { OnOk result (out.new.items ≡ out.old.items ++ sections_bytes message.now) }
    ensures typed { OnOk result (HasTypedSections message.now) }
{
    put_questions(out, message.questions.as_slice())?;
    put_records(out, message.answers.as_slice())?;
    put_records(out, message.authorities.as_slice())?;
    put_records(out, message.additionals.as_slice())
}

/// The bytes of the message, each name without pointers. It is TooLong exactly above 65,535 bytes.
#[tactic(auto, using(crate::proofs::WrittenLemmas::encoded_reads))]
pub fn encode(alloc: Global, message: &Message) -> Result<Bytes, EncodeFault>
    ensures spelled { IfOk result (λ bytes. bytes ≡ message_bytes message.now) }
    ensures short { IfOk result (λ bytes. length bytes ≤ 65535) }
    ensures read_back { IfOk result (λ bytes. IsValid message.now → message_read bytes ≡ Ok message.now) }
    ensures too_long { IfErr result
        (λ fault. fault ≡ EncodeFault.TooLong → 65535 < length (message_bytes message.now)) }
{
    let Some(size) = size_of_message(message) else {
        return Err(EncodeFault::TooLong);
    };
    let mut out = Vec::with_capacity(alloc, size)?;
    put_header(&mut out, message)?;
    put_sections(&mut out, message)?;
    Ok(Bytes::from_vec(out))
}
