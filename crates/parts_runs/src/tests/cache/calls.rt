//! Calls of a cache as rows, each with what it answers.

use chan_types::{Answer, Status};
use dns_message::{Bytes, Name, Question};
use net_addr::AddrList;
use query_cache::QueryCache;
use std::alloc::Global;
use std::test::Fail;

/// The kind of a record that has an address, and of one that has an alias (RFC 1035, section 3.2.2).
pub const A: u8 = 1;

pub const CNAME: u8 = 5;

/// A call at a moment, for the addresses of a name, with what it answers. Records are told by their kinds and ttls.
#[derive(Clone, Copy)]
pub enum Call<'a> {
    /// The answer of this number, with these records, is kept.
    Keep(u64, &'a str, u64, &'a [(u8, u32)]),
    /// It isn't kept.
    Refuse(u64, &'a str, u64, &'a [(u8, u32)]),
    /// A look gives the answer of this number.
    Hit(u64, &'a str, u64),
    /// A look gives none.
    Miss(u64, &'a str),
}

/// The question for the addresses of a name (kind 1, class 1).
pub fn question(alloc: Global, name: &str) -> Result<Question, Fail> {
    let read = Name::from_text(alloc, name.as_bytes())?;
    Ok(Question {
        name: read.name,
        kind: 1,
        class: 1,
    })
}

/// Adds a record of `a.`: an alias for `b.`, or the address 192.0.2.1 (RFC 1035, section 4.1.3).
fn add_record(bytes: &mut Vec<u8>, kind: u8, ttl: u32) -> Result<(), Fail> {
    bytes.extend_from_slice(&[1, b'a', 0, 0, kind, 0, 1])?;
    bytes.extend_from_slice(&ttl.to_be_bytes())?;
    if kind == CNAME {
        bytes.extend_from_slice(b"\0\x03\x01b\0")?;
    } else {
        bytes.extend_from_slice(b"\0\x04\xc0\0\x02\x01")?;
    }
    Ok(())
}

/// A message with the flags QR, RD and RA that says it has so many answers, and has these records (section 4.1.1).
pub fn message(alloc: Global, count: u8, records: &[(u8, u32)]) -> Result<Vec<u8>, Fail> {
    let head = [0x12, 0x34, 0x81, 0x80, 0, 0, 0, count, 0, 0, 0, 0];
    let mut bytes = Vec::from_slice(alloc, &head)?;
    for (kind, ttl) in records {
        add_record(&mut bytes, *kind, *ttl)?;
    }
    Ok(bytes)
}

/// An answer with this number, status and message.
pub fn answer_with(alloc: Global, number: u64, status: Status, message: Vec<u8>) -> Answer {
    Answer {
        number,
        status,
        message: Bytes::from_vec(message),
        addresses: AddrList::new(alloc),
        canonical: Name::root(alloc),
    }
}

/// An answer with the status Success and these records.
pub fn answer(alloc: Global, number: u64, records: &[(u8, u32)]) -> Result<Answer, Fail> {
    let bytes = message(alloc, records.len().min(255) as u8, records)?;
    Ok(answer_with(alloc, number, Status::Success, bytes))
}

/// The number of the answer that the cache gives.
pub fn given(cache: &mut QueryCache, asked: &Question, at: u64) -> Result<Option<u64>, Fail> {
    match cache.look(asked, at)? {
        Some(found) => Ok(Some(found.number)),
        None => Ok(None),
    }
}

/// Whether an answer is kept for a name at a moment.
fn is_kept(
    alloc: Global,
    cache: &mut QueryCache,
    at: u64,
    name: &str,
    answer: Answer,
) -> Result<bool, Fail> {
    Ok(cache.keep(&question(alloc, name)?, answer, at)?)
}

/// Whether the call answers what it says.
fn is_so(alloc: Global, cache: &mut QueryCache, call: Call<'_>) -> Result<bool, Fail> {
    match call {
        Call::Keep(at, name, number, records) => {
            is_kept(alloc, cache, at, name, answer(alloc, number, records)?)
        }
        Call::Refuse(at, name, number, records) => {
            Ok(!is_kept(alloc, cache, at, name, answer(alloc, number, records)?)?)
        }
        Call::Hit(at, name, number) => {
            Ok(given(cache, &question(alloc, name)?, at)? == Some(number))
        }
        Call::Miss(at, name) => Ok(given(cache, &question(alloc, name)?, at)?.is_none()),
    }
}

/// The first of these calls, from 0, that answers otherwise than it says.
pub fn first_wrong(
    alloc: Global,
    cache: &mut QueryCache,
    calls: &[Call<'_>],
) -> Result<Option<usize>, Fail> {
    for (index, call) in calls.iter().enumerate() {
        if !is_so(alloc, cache, *call)? {
            return Ok(Some(index));
        }
    }
    Ok(None)
}
