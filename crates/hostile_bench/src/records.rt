//! What is said of messages and rdata: header, questions and records, the OPT record, the bytes, and what a walk tells.

use crate::telling::{put, put_fault};
use dns_message::{Bytes, Message, Name, Question, Record, decode, encode};
use dns_rdata::{class_text, kind_text, line, rdata};
use edns_opt::{EdnsItem, Opt, find, full_rcode};
use item_list::NoMemory;
use message_walk::{Outline, read_outline};
use std::alloc::Global;

/// Puts a record's line.
pub fn put_line(alloc: Global, out: &mut Vec<u8>, item: &Record) -> Result<(), NoMemory> {
    put(out, line(alloc, item)?.as_slice())
}

/// Puts the message that the bytes are, or its fault, and what a walk over the bytes tells.
pub fn put_decoded(alloc: Global, out: &mut Vec<u8>, bytes: &[u8]) -> Result<(), NoMemory> {
    match decode(alloc, bytes) {
        Ok(message) => put_message(alloc, out, &message)?,
        Err(fault) => put_fault(alloc, out, &fault)?,
    }
    put_outline(alloc, out, bytes)
}

/// Puts a message: identifier and flags, a line for each question and record, an empty line before each section, what its
/// OPT record says, and the bytes that it is written as.
fn put_message(alloc: Global, out: &mut Vec<u8>, message: &Message) -> Result<(), NoMemory> {
    let header = format!(in alloc; "{} {}\n", message.id, message.flags)?;
    put(out, header.as_bytes())?;
    for question in message.questions.as_slice() {
        put_question(alloc, out, question)?;
    }
    put_sections(alloc, out, message)?;
    put_opt(alloc, out, message)?;
    put_written(alloc, out, message)
}

/// Puts the bytes that a message is written as.
fn put_written(alloc: Global, out: &mut Vec<u8>, message: &Message) -> Result<(), NoMemory> {
    match encode(alloc, message) {
        Ok(bytes) => put(out, hex::encode(alloc, bytes.as_slice())?.as_bytes()),
        Err(fault) => put_fault(alloc, out, &fault),
    }
}

/// Puts a question.
fn put_question(alloc: Global, out: &mut Vec<u8>, question: &Question) -> Result<(), NoMemory> {
    put(out, question.name.to_text(alloc)?.as_slice())?;
    put(out, b" ")?;
    put(out, class_text(alloc, question.class)?.as_slice())?;
    put(out, b" ")?;
    put(out, kind_text(alloc, question.kind)?.as_slice())?;
    put(out, b"\n")
}

/// Puts the three sections of records.
fn put_sections(alloc: Global, out: &mut Vec<u8>, message: &Message) -> Result<(), NoMemory> {
    put_section(alloc, out, message.answers.as_slice())?;
    put_section(alloc, out, message.authorities.as_slice())?;
    put_section(alloc, out, message.additionals.as_slice())
}

/// Puts a section behind an empty line.
fn put_section(alloc: Global, out: &mut Vec<u8>, items: &[Record]) -> Result<(), NoMemory> {
    put(out, b"\n")?;
    for item in items {
        put_line(alloc, out, item)?;
    }
    Ok(())
}

/// Puts the response code and what the OPT record says, or its fault.
fn put_opt(alloc: Global, out: &mut Vec<u8>, message: &Message) -> Result<(), NoMemory> {
    put(out, b"\n")?;
    match find(alloc, message) {
        Ok(found) => put_found(alloc, out, full_rcode(message, found.as_ref()), found)?,
        Err(fault) => put_fault(alloc, out, &fault)?,
    }
    put(out, b"\n")
}

/// Puts the response code, and an OPT record if there is one.
fn put_found(
    alloc: Global,
    out: &mut Vec<u8>,
    code: u16,
    found: Option<Opt>,
) -> Result<(), NoMemory> {
    put(out, format!(in alloc; "rcode {code}")?.as_bytes())?;
    match found {
        Some(opt) => put_options(alloc, out, &opt),
        None => Ok(()),
    }
}

/// Puts what an OPT record says.
fn put_options(alloc: Global, out: &mut Vec<u8>, opt: &Opt) -> Result<(), NoMemory> {
    let switch = if opt.do_bit { 1u8 } else { 0 };
    let said = format!(in alloc; " size {} version {} do {switch}", opt.size, opt.version)?;
    put(out, said.as_bytes())?;
    for item in opt.options.as_slice() {
        put_option(alloc, out, item)?;
    }
    Ok(())
}

/// Puts an option.
fn put_option(alloc: Global, out: &mut Vec<u8>, item: &EdnsItem) -> Result<(), NoMemory> {
    put(out, format!(in alloc; " {}:", item.code)?.as_bytes())?;
    put(out, hex::encode(alloc, item.content.as_slice())?.as_bytes())
}

/// Puts what a walk over the bytes tells that asks for the addresses of example.com.
fn put_outline(alloc: Global, out: &mut Vec<u8>, bytes: &[u8]) -> Result<(), NoMemory> {
    let Ok(asked) = Name::from_text(alloc, b"example.com") else {
        return Err(NoMemory);
    };
    let question = Question {
        name: asked.name,
        kind: 1,
        class: 1,
    };
    match read_outline(bytes, &question, false, Some(1)) {
        Some(found) => put_told(alloc, out, found),
        None => put(out, b" walk"),
    }
}

/// Puts what a walk told: whether there is an answer, and 0 or one more than the upper bits of the response code.
fn put_told(alloc: Global, out: &mut Vec<u8>, found: Outline) -> Result<(), NoMemory> {
    let answered = if found.answered { 1u8 } else { 0 };
    let extended = match found.extended {
        Some(code) => u16::from(code).saturating_add(1),
        None => 0,
    };
    put(
        out,
        format!(in alloc; " walk {answered} {extended}")?.as_bytes(),
    )
}

/// Puts the line of a record of the root that has this type, class and rdata, and whether that has its shape.
pub fn put_rdata(alloc: Global, out: &mut Vec<u8>, bytes: &[u8]) -> Result<(), NoMemory> {
    let [a, b, c, d, held @ ..] = bytes else {
        return put(out, b"!");
    };
    let item = Record {
        name: Name::root(alloc),
        kind: u16::from_be_bytes([*a, *b]),
        class: u16::from_be_bytes([*c, *d]),
        ttl: 0,
        rdata: Bytes::of(alloc, held)?,
    };
    if let Err(fault) = rdata(alloc, &item) {
        put_fault(alloc, out, &fault)?;
    }
    put_line(alloc, out, &item)
}
