//! How a run's text is put, once, and what the exit status is then.

ghost use Rattle.std.specs.Prelude.{◌≡◌, Some};
ghost use Rattle.journal_text.specs.BookText.{text_of_book};
ghost use Rattle.tool_line.specs.Ending.{text_of};
ghost use Rattle.tool_line.specs.declared.ending.Tool.TheVariants.{Adig};
ghost use Rattle.adig_tool.specs.Output.{answer_page, page_for, text_at};
ghost use Rattle.tool_line.specs.Put.{IsPut};

use chan_types::{Calls, Spec};
use item_list::NoMemory;
use journal_text::{Book, print_book};
use net_world::{PutEnd, Sink};
use std::alloc::Global;
use tool_line::{Exit, Tool, page_of};

/// Puts the text of a run that came to this end, and answers the exit status.
pub fn put<K: Sink>(sink: &mut K, text: &[u8], end: Exit) -> u8
    ensures { IsPut (Some text.now) end result
        (record { bytes = K.bytes sink.old; faults = K.faults sink.old; puts = K.puts sink.old })
        (record { bytes = K.bytes sink.new; faults = K.faults sink.new; puts = K.puts sink.new }) }
{
    match sink.put(text) {
        Ok(PutEnd::Done) => end.number(),
        Ok(PutEnd::Failed) => Exit::SinkFault.number(),
        Err(NoMemory) => Exit::OutOfMemory.number(),
    }
}

/// Puts the line that stands in place of a page at this end, if there is one.
pub fn put_line<K: Sink>(sink: &mut K, end: Exit) -> u8
    ensures { IsPut (text_of Adig end) end result
        (record { bytes = K.bytes sink.old; faults = K.faults sink.old; puts = K.puts sink.old })
        (record { bytes = K.bytes sink.new; faults = K.faults sink.new; puts = K.puts sink.new }) }
{
    match end.text(Tool::Adig) {
        Some(line) => put(sink, line.as_bytes(), end),
        None => Exit::OutOfMemory.number(),
    }
}

/// Puts the page of a request whose callback was called, if it was.
fn put_page<K: Sink>(alloc: Global, spec: &Spec, calls: &Calls, end: Exit, sink: &mut K) -> u8
    ensures { IsPut (answer_page spec.now calls.now) end result
        (record { bytes = K.bytes sink.old; faults = K.faults sink.old; puts = K.puts sink.old })
        (record { bytes = K.bytes sink.new; faults = K.faults sink.new; puts = K.puts sink.new }) }
{
    match calls.iter().next() {
        Some(answer) => match page_of(alloc, spec, answer) {
            Ok(page) => put(sink, page.as_slice(), end),
            Err(NoMemory) => Exit::OutOfMemory.number(),
        },
        None => Exit::OutOfMemory.number(),
    }
}

/// Puts the text of the book.
fn put_book<K: Sink>(alloc: Global, book: &Book, end: Exit, sink: &mut K) -> u8
    ensures { IsPut (Some (text_of_book book.now)) end result
        (record { bytes = K.bytes sink.old; faults = K.faults sink.old; puts = K.puts sink.old })
        (record { bytes = K.bytes sink.new; faults = K.faults sink.new; puts = K.puts sink.new }) }
{
    match print_book(alloc, book) {
        Ok(text) => put(sink, text.as_slice(), end),
        Err(NoMemory) => Exit::OutOfMemory.number(),
    }
}

/// Puts the text of a run that came to this end: its page, or with the flag its book, or the line in place of either.
pub fn tell<K: Sink>(
    alloc: Global,
    spec: &Spec,
    as_book: bool,
    book: &Book,
    calls: &Calls,
    end: Exit,
    sink: &mut K,
) -> u8
    ensures { IsPut (text_at (page_for spec.now as_book book.now calls.now) end) end result
        (record { bytes = K.bytes sink.old; faults = K.faults sink.old; puts = K.puts sink.old })
        (record { bytes = K.bytes sink.new; faults = K.faults sink.new; puts = K.puts sink.new }) }
{
    match end {
        Exit::Success | Exit::Failure => {
            if as_book {
                put_book(alloc, book, end, sink)
            } else {
                put_page(alloc, spec, calls, end, sink)
            }
        }
        _ => put_line(sink, end),
    }
}
