//! Queries that are built, and messages that are judged.

mod rounds;

use crate::words::Words;
use dns_message::{Name, NameFault, NoMemory, Question};
use query_machine::Terms;
use resolv_options::Options;
use rounds::{judge_often, query_often, stray_often};
use std::alloc::Global;
use std::io;

/// A reply to the query of identifier 0x1234 for the addresses of example.com: one address, and an OPT record.
const REPLY: &[u8; 56] =
    b"\x12\x34\x81\x80\0\x01\0\x01\0\0\0\x01\x07example\x03com\0\0\x01\0\x01\xc0\x0c\0\x01\0\x01\0\0\0\x3c\0\x04\xc0\0\x02\x01\0\0\x29\x04\xd0\0\0\0\0\0\0";

/// The question for the addresses of example.com.
fn address_of_example(alloc: Global) -> Result<Question, NameFault> {
    Ok(Question {
        name: Name::from_text(alloc, b"example.com")?.name,
        kind: 1,
        class: 1,
    })
}

/// A reply over UDP is judged by plain options, for a query with an OPT record, where an address is wanted.
fn plain_terms(alloc: Global) -> Result<Terms, NoMemory> {
    Ok(Terms {
        flags: Options::plain(alloc)?.flags(),
        tcp: false,
        edns: true,
        wanted: Some(1),
    })
}

// With a task and how often as its words it does that, and else tells a line that is always the same.
pub fn measure(alloc: Global, words: &Words) -> io::Result<String> {
    let Ok(asked) = address_of_example(alloc) else {
        return Ok(String::new(alloc));
    };
    let Ok(terms) = plain_terms(alloc) else {
        return Ok(String::new(alloc));
    };
    let Some(times) = words.number(1) else {
        let query = query_often(alloc, &asked, Some(1232), 1);
        return Ok(format!(in alloc; "a query of {query} bytes, and a reply of {}", REPLY.len())?);
    };
    let task = words.task();
    let seen = match task {
        "query" => query_often(alloc, &asked, None, times),
        "query-opt" => query_often(alloc, &asked, Some(1232), times),
        "stray" => stray_often(REPLY, &asked, terms, times),
        "reply" => judge_often(REPLY, 0x1234, &asked, terms, times),
        _ => 0,
    };
    Ok(format!(in alloc; "{task} {times} {seen}")?)
}
