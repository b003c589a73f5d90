//! Answers at once and merged answers, as tables.

mod answers_at_once;
mod merged_replies;

use addr_lookup::{LegEnd, at_once, merge};
use chan_types::{Addr, Answer, Bytes, Family, Name, NoMemory, Spec, Status};
use dns_message::{Record, RecordList};
use hosts_file::Hosts;
use resolv_options::{Lookups, Options};
use std::alloc::Global;
use std::test::Fail;

/// What is expected of an answer: the code that c-ares gives its status, its addresses, and its canonical name as a text.
type Expected = (u8, &'static [Addr], &'static str);

/// Whether the answer is the expected one, with the number 7 and without a message.
fn is_expected(alloc: Global, answer: &Answer, expected: &Expected) -> Result<bool, NoMemory> {
    let (code, addresses, canonical) = *expected;
    let has_values = answer.number == 7
        && answer.message.is_empty()
        && answer.status.code() == code
        && answer.addresses.as_slice() == addresses;
    Ok(has_values && is_printed(alloc, &answer.canonical, canonical)?)
}

/// Whether a name is printed so.
fn is_printed(alloc: Global, name: &Name, text: &str) -> Result<bool, NoMemory> {
    Ok(name.to_text(alloc)?.as_slice() == text.as_bytes())
}
