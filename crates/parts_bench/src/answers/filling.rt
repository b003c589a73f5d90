//! The questions and answers that a cache is filled with.

use chan_types::{Answer, Status};
use dns_message::{Bytes, Name, NameFault, NoMemory, Question};
use net_addr::AddrList;
use query_cache::QueryCache;
use std::alloc::Global;

/// A reply with one address and the time to live of an hour (RFC 1035, section 4.1). Its question is left out.
const REPLY: &[u8; 27] =
    b"\x12\x34\x81\x80\0\0\0\x01\0\0\0\0\x01a\0\0\x01\0\x01\0\0\x0e\x10\0\x04\xc0\0";

/// The last two bytes of the address.
const HOST: &[u8; 2] = b"\x02\x01";

/// The name `host` with five digits, `.example.` and a domain.
fn name(alloc: Global, number: u32, domain: &[u8]) -> Result<Name, NoMemory> {
    let mut label = *b"host00000";
    let mut rest = number;
    for digit in label[4..].iter_mut().rev() {
        *digit = b'0' + (rest % 10) as u8;
        rest /= 10;
    }
    let labels: [&[u8]; 3] = [&label, b"example", domain];
    Name::from_labels(alloc, &labels).map_err(|_: NameFault| NoMemory)
}

/// The question for the address of a name.
fn question(alloc: Global, number: u32, domain: &[u8]) -> Result<Question, NoMemory> {
    Ok(Question {
        name: name(alloc, number, domain)?,
        kind: 1,
        class: 1,
    })
}

/// So many questions, for names in a domain.
pub fn questions(alloc: Global, domain: &[u8], count: u32) -> Result<Vec<Question>, NoMemory> {
    let mut made = Vec::new(alloc);
    for number in 0..count {
        made.push(question(alloc, number, domain)?)?;
    }
    Ok(made)
}

/// An answer with one address.
fn answer(alloc: Global, number: u32) -> Result<Answer, NoMemory> {
    let mut message = Vec::from_slice(alloc, REPLY)?;
    message.extend_from_slice(HOST)?;
    Ok(Answer {
        number: u64::from(number),
        status: Status::Success,
        message: Bytes::from_vec(message),
        addresses: AddrList::new(alloc),
        canonical: Name::root(alloc),
    })
}

/// Keeps so many answers, to questions for names below `example.com`, and says how many were kept.
pub fn fill(alloc: Global, cache: &mut QueryCache, count: u32) -> Result<u32, NoMemory> {
    let mut kept = 0u32;
    for number in 0..count {
        let asked = question(alloc, number, b"com")?;
        if cache.keep(&asked, answer(alloc, number)?, 0)? {
            kept = kept.saturating_add(1);
        }
    }
    Ok(kept)
}
