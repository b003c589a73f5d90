//! The texts of answers.

ghost use Rattle.std.specs.Prelude.{◌≡◌, ◌++◌, IfOk, OnErr, OnOk, flat_map, map};
ghost use Rattle.host_lookups.specs.Page as meaning;

use chan_types::Answer;
use item_list::NoMemory;
use net_addr::{Addr, print};
use std::alloc::Global;

/// Writes addresses, each on a line. For want of memory the page is as before.
pub fn put_addresses(alloc: Global, addresses: &[Addr], page: &mut Vec<u8>) -> Result<(), NoMemory>
    ensures ok { OnOk result (page.new.items ≡ page.old.items ++ flat_map meaning.address_line addresses.now) }
    ensures err { OnErr result (page.new.items ≡ page.old.items) }
{
    let lines = address_lines(alloc, addresses)?;
    page.extend_from_slice(lines.as_slice())?;
    Ok(())
}

/// Addresses, each on a line.
fn address_lines(alloc: Global, addresses: &[Addr]) -> Result<Vec<u8>, NoMemory>
    ensures { IfOk result (λ lines. lines.items ≡ flat_map meaning.address_line addresses.now) }
{
    let mut lines = Vec::new(alloc);
    for address in addresses {
        lines.extend_from_slice(print(alloc, *address)?.as_slice())?;
        lines.push(b'\n')?;
    }
    Ok(lines)
}

/// Writes an answer on a line: the name that was asked for, or a plus sign for what a callback asked; how it ended; and its
/// addresses. Requests have numbers from 1 on, in the order in which they were accepted. For want of memory the page is as
/// before.
pub fn put_answer(
    alloc: Global,
    names: &[&str],
    answer: &Answer,
    page: &mut Vec<u8>,
) -> Result<(), NoMemory>
    ensures ok { OnOk result (page.new.items
        ≡ page.old.items ++ meaning.answer_line (map (λ name. name.now) names.now) answer.now) }
    ensures err { OnErr result (page.new.items ≡ page.old.items) }
{
    put_line(
        alloc,
        subject(names, answer.number).as_bytes(),
        answer,
        page,
    )
}

/// Writes an answer on a line: what was asked for; how it ended; and its addresses. For want of memory the page is as before.
pub fn put_line(
    alloc: Global,
    subject: &[u8],
    answer: &Answer,
    page: &mut Vec<u8>,
) -> Result<(), NoMemory>
    ensures ok { OnOk result (page.new.items ≡ page.old.items ++ meaning.line_of subject.now answer.now) }
    ensures err { OnErr result (page.new.items ≡ page.old.items) }
{
    let line = line_for(alloc, subject, answer)?;
    page.extend_from_slice(line.as_slice())?;
    Ok(())
}

/// An answer's line.
fn line_for(alloc: Global, subject: &[u8], answer: &Answer) -> Result<Vec<u8>, NoMemory>
    ensures { IfOk result (λ line. line.items ≡ meaning.line_of subject.now answer.now) }
{
    let mut line = Vec::from_slice(alloc, subject)?;
    line.push(b' ')?;
    line.extend_from_slice(answer.status.text().as_bytes())?;
    put_spaced(alloc, answer.addresses.as_slice(), &mut line)?;
    line.push(b'\n')?;
    Ok(line)
}

/// The name that the request with this number asked for, or a plus sign.
fn subject<'a>(names: &[&'a str], number: u64) -> &'a str
    ensures { result.now ≡ meaning.subject_of (map (λ name. name.now) names.now) number }
{
    match names.get(number.saturating_sub(1) as usize) {
        Some(name) => name,
        None => "+",
    }
}

/// Writes addresses, each behind a blank.
fn put_spaced(alloc: Global, addresses: &[Addr], page: &mut Vec<u8>) -> Result<(), NoMemory>
    ensures { OnOk result (page.new.items ≡ page.old.items ++ flat_map meaning.spaced_address addresses.now) }
{
    for address in addresses {
        page.push(b' ')?;
        page.extend_from_slice(print(alloc, *address)?.as_slice())?;
    }
    Ok(())
}
