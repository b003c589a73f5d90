//! The lines that ahost prints of a request: how it ended, and what was found.

ghost use Rattle.std.specs.Prelude.{◌≡◌, ◌++◌, flat_map, IfOk, OnOk};
ghost use Rattle.dns_message.specs.Reading.{message_read};
ghost use Rattle.dns_rdata.specs.Lines.{line_of};
ghost use Rattle.tool_line.specs.Block as meaning;

use crate::heads::label;
use crate::text::Text;
use chan_types::{Answer, Spec, Status};
use dns_message::{MessageFault, Record, decode};
use dns_rdata::line;
use item_list::{Bytes, NoMemory};
use net_addr::{Addr, print};
use std::alloc::Global;

/// The lines of a request that stands so many requests deep: how it ended, and where it ended well what was found.
pub fn block_lines(
    alloc: Global,
    depth: u32,
    spec: &Spec,
    answer: &Answer,
) -> Result<Bytes, NoMemory>
    ensures { IfOk result (λ text. text ≡ meaning.block_lines depth spec.now answer.now) }
{
    let mut text = Text::new(alloc);
    put_head(&mut text, alloc, depth, spec, answer.status)?;
    if answer.status.code() == 0 {
        put_found(&mut text, alloc, depth, spec, answer)?;
    }
    Ok(text.into_bytes())
}

/// Prints how a request ended.
fn put_head(
    text: &mut Text,
    alloc: Global,
    depth: u32,
    spec: &Spec,
    status: Status,
) -> Result<(), NoMemory>
    ensures { OnOk result (text.new ≡ text.old ++ meaning.head_line depth spec.now status) }
{
    text.put_blanks(2 * u64::from(depth))?;
    text.put(label(alloc, spec)?.as_slice())?;
    text.put_number(u64::from(status.code()))?;
    text.put_word(status.text().as_bytes())?;
    text.put(b"\n")
}

/// Prints what was found: the addresses that were asked for, or the answers of the reply.
fn put_found(
    text: &mut Text,
    alloc: Global,
    depth: u32,
    spec: &Spec,
    answer: &Answer,
) -> Result<(), NoMemory>
    ensures { OnOk result (text.new ≡ text.old ++ meaning.found_lines depth spec.now answer.now) }
{
    match spec {
        Spec::Address { .. } => put_addresses(text, alloc, depth, answer.addresses.as_slice()),
        Spec::Query { .. } | Spec::Search { .. } | Spec::Reverse { .. } => {
            put_answers(text, alloc, depth, answer.message.as_slice())
        }
    }
}

/// Prints a line of what was found.
fn put_found_line(text: &mut Text, depth: u32, line: &[u8]) -> Result<(), NoMemory>
    ensures { OnOk result (text.new ≡ text.old ++ meaning.found_line depth line.now) }
{
    text.put_blanks(2 * u64::from(depth) + 2)?;
    text.put(line)
}

/// Prints addresses, each on a line.
fn put_addresses(
    text: &mut Text,
    alloc: Global,
    depth: u32,
    addresses: &[Addr],
) -> Result<(), NoMemory>
    ensures { OnOk result (text.new ≡ text.old ++ flat_map (meaning.address_line depth) addresses.now) }
{
    for address in addresses {
        put_found_line(text, depth, print(alloc, *address)?.as_slice())?;
        text.put(b"\n")?;
    }
    Ok(())
}

/// Prints the answers of a reply, if the bytes are one.
fn put_answers(text: &mut Text, alloc: Global, depth: u32, bytes: &[u8]) -> Result<(), NoMemory>
    ensures { OnOk result (text.new ≡ text.old ++ meaning.answer_lines depth (message_read bytes.now)) }
{
    match decode(alloc, bytes) {
        Ok(message) => put_records(text, alloc, depth, message.answers.as_slice()),
        Err(MessageFault::NoMemory) => Err(NoMemory),
        Err(_) => Ok(()),
    }
}

/// Prints records, each on a line.
fn put_records(
    text: &mut Text,
    alloc: Global,
    depth: u32,
    records: &[Record],
) -> Result<(), NoMemory>
    ensures { OnOk result (text.new ≡ text.old ++ flat_map (meaning.record_line depth) records.now) }
{
    for item in records {
        put_found_line(text, depth, line(alloc, item)?.as_slice())?;
    }
    Ok(())
}
