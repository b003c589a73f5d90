//! One call, so many times. Each answers a number that all results go into.

use dns_message::{Message, Name, NoMemory, Question, QuestionList, RecordList, decode, encode};
use std::alloc::Global;

/// Reads the bytes so many times.
pub fn decode_often(alloc: Global, bytes: &[u8], times: u32) -> u64 {
    let mut seen = 0u64;
    for _ in 0..times {
        if let Ok(message) = decode(alloc, bytes) {
            let items = message.questions.len() as u64;
            seen = seen
                .wrapping_add(items)
                .wrapping_add(message.answers.len() as u64);
        }
    }
    seen
}

/// Reads the bytes once, and writes the message so many times.
pub fn encode_often(alloc: Global, bytes: &[u8], times: u32) -> u64 {
    let mut seen = 0u64;
    if let Ok(message) = decode(alloc, bytes) {
        for _ in 0..times {
            if let Ok(bytes) = encode(alloc, &message) {
                seen = seen.wrapping_add(bytes.len() as u64);
            }
        }
    }
    seen
}

/// Builds the bytes of a query for the address of `www.example.com` so many times, from a name that is there.
pub fn query_often(alloc: Global, times: u32) -> u64 {
    let mut seen = 0u64;
    if let Ok(text) = Name::from_text(alloc, b"www.example.com") {
        for _ in 0..times {
            if let Some(len) = query_len(alloc, &text.name) {
                seen = seen.wrapping_add(len as u64);
            }
        }
    }
    seen
}

/// Builds the bytes of a query for the address of `www.example.com` so many times, each time from the name's text.
pub fn text_query_often(alloc: Global, times: u32) -> u64 {
    let mut seen = 0u64;
    for _ in 0..times {
        if let Some(len) = text_query_len(alloc) {
            seen = seen.wrapping_add(len as u64);
        }
    }
    seen
}

/// Copies a name in mixed case so many times.
pub fn mixed_often(alloc: Global, times: u32) -> u64 {
    let mut seen = 0u64;
    if let Ok(text) = Name::from_text(alloc, b"www.example.com") {
        for _ in 0..times {
            if let Ok(mixed) = text.name.mixed(alloc, 0x0a55) {
                seen = seen.wrapping_add(mixed.wire_len() as u64);
            }
        }
    }
    seen
}

/// Reads a name, builds the bytes of its query, and answers how many there are.
fn text_query_len(alloc: Global) -> Option<usize> {
    let text = Name::from_text(alloc, b"www.example.com").ok()?;
    query_len(alloc, &text.name)
}

/// Builds a query's bytes, and answers how many there are.
fn query_len(alloc: Global, name: &Name) -> Option<usize> {
    let query = query_of(alloc, name).ok()?;
    Some(encode(alloc, &query).ok()?.len())
}

/// A query for an address.
fn query_of(alloc: Global, name: &Name) -> Result<Message, NoMemory> {
    let mut questions = QuestionList::new(alloc);
    questions.push(Question {
        name: name.copy(alloc)?,
        kind: 1,
        class: 1,
    })?;
    Ok(Message {
        id: 0x1234,
        flags: 0x0100,
        questions,
        answers: RecordList::new(alloc),
        authorities: RecordList::new(alloc),
        additionals: RecordList::new(alloc),
    })
}
