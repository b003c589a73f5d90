//! Messages that are read and written.

mod replies;
mod rounds;

use crate::words::Words;
use replies::{address_reply, chained, mixed_reply};
use rounds::{decode_often, encode_often, mixed_often, query_often, text_query_often};
use std::alloc::Global;
use std::io;

// With a task and how often as its words it does that, and else tells a line that is always the same.
pub fn measure(alloc: Global, words: &Words) -> io::Result<String> {
    let Some(times) = words.number(1) else {
        return lengths(alloc);
    };
    let task = words.task();
    let seen = match task {
        "decode-mixed" => decode_often(alloc, mixed_reply(alloc)?.as_slice(), times),
        "decode-addresses" => decode_often(alloc, address_reply(alloc)?.as_slice(), times),
        "decode-chained" => decode_often(alloc, chained(alloc)?.as_slice(), times),
        "encode-mixed" => encode_often(alloc, mixed_reply(alloc)?.as_slice(), times),
        "encode-addresses" => encode_often(alloc, address_reply(alloc)?.as_slice(), times),
        "query" => query_often(alloc, times),
        "query-from-text" => text_query_often(alloc, times),
        "mixed" => mixed_often(alloc, times),
        _ => 0,
    };
    Ok(format!(in alloc; "{task} {times} {seen}")?)
}

/// How long the two replies are.
fn lengths(alloc: Global) -> io::Result<String> {
    let mixed = mixed_reply(alloc)?.len();
    let addresses = address_reply(alloc)?.len();
    Ok(format!(in alloc; "a reply of {mixed} bytes with ten records, and one of {addresses}")?)
}
