//! The page of ahost: a block for each name, and in it the blocks of the requests that its callback asked.

mod told;

ghost use Rattle.std.specs.Prelude.{◌≡◌, ◌++◌, IfOk, OnOk};
ghost use Rattle.ahost_tool.specs.Page.{blocks, lines_of, page_of};
ghost use Rattle.ahost_tool.specs.Told.{as_told, request_block};

use chan_types::{Calls, Entry};
use item_list::{Bytes, NoMemory};
use std::alloc::Global;
use told::{Request, Told};
use tool_line::block_lines;

/// The page of a run with these entries and answers.
pub(crate) fn page_of(alloc: Global, entries: &[Entry], calls: &Calls) -> Result<Bytes, NoMemory>
    ensures { IfOk result (λ text. text ≡ page_of entries.now calls.now) }
{
    let mut text = Vec::new(alloc);
    let told = Told::gather(alloc, entries, calls)?;
    put_blocks(&mut text, &told, entries.len() as u64, 0, 0)?;
    Ok(Bytes::from_vec(text))
}

/// Prints the blocks of the requests that this one's callback asked, nested at most so deep.
#[cycle(blocks)]
fn put_blocks(
    text: &mut Vec<u8>,
    told: &Told<'_>,
    most: u64,
    depth: u32,
    by: u64,
) -> Result<(), NoMemory>
    ensures { OnOk result (text.new.items
        ≡ text.old.items ++ blocks told.now.entries.now told.now.calls.now most depth by) }
{
    if most == 0 {
        return Ok(());
    }
    let Some(requests) = told.requests_by(by) else {
        return Ok(());
    };
    for request in requests {
        put_block(text, told, most - 1, depth, request)?;
    }
    Ok(())
}

/// Prints the block of a request.
#[cycle(blocks)]
fn put_block(
    text: &mut Vec<u8>,
    told: &Told<'_>,
    most: u64,
    depth: u32,
    request: &Request<'_>,
) -> Result<(), NoMemory>
    ensures { OnOk result (text.new.items ≡ text.old.items
        ++ request_block told.now.entries.now told.now.calls.now most depth (as_told request.now)) }
{
    put_lines(text, told, depth, request)?;
    // No page has room for lines that far to the right.
    let Some(deeper) = depth.checked_add(1) else {
        return Err(NoMemory);
    };
    put_blocks(text, told, most, deeper, request.number)
}

/// Prints the lines of a request, if its callback was called.
fn put_lines(
    text: &mut Vec<u8>,
    told: &Told<'_>,
    depth: u32,
    request: &Request<'_>,
) -> Result<(), NoMemory>
    ensures { OnOk result (text.new.items ≡ text.old.items
        ++ lines_of told.now.calls.now depth request.now.number request.now.spec.now) }
{
    let alloc = *text.allocator();
    if let Some(answer) = told.answer_for(request.number) {
        text.extend_from_slice(block_lines(alloc, depth, request.spec, answer)?.as_slice())?;
    }
    Ok(())
}
