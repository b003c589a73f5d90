//! How a run's text is put, once, and what the exit status is then.

ghost use Rattle.std.specs.Prelude.{◌≡◌, Some};
ghost use Rattle.tool_line.specs.Put.{IsPut};
ghost use Rattle.acache_tool.specs.Output.{line_at as line_of, text_at};

use crate::ending::line_at;
use item_list::NoMemory;
use net_world::{PutEnd, Sink};
use tool_line::Exit;

/// Puts the text of a run that came to this end, and answers the exit status.
fn put<K: Sink>(sink: &mut K, text: &[u8], end: Exit) -> u8
    ensures { IsPut (Some text.now) end result
        (record { bytes = K.bytes sink.old; faults = K.faults sink.old; puts = K.puts sink.old })
        (record { bytes = K.bytes sink.new; faults = K.faults sink.new; puts = K.puts sink.new }) }
{
    match sink.put(text) {
        Ok(PutEnd::Done) => end.number(),
        Ok(PutEnd::Failed) => Exit::SinkFault.number(),
        Err(NoMemory) => Exit::OutOfMemory.number(),
    }
}

/// Puts the line that stands in place of a page at this end, if there is one.
pub(crate) fn put_line<K: Sink>(sink: &mut K, end: Exit) -> u8
    ensures { IsPut (line_of end) end result
        (record { bytes = K.bytes sink.old; faults = K.faults sink.old; puts = K.puts sink.old })
        (record { bytes = K.bytes sink.new; faults = K.faults sink.new; puts = K.puts sink.new }) }
{
    match line_at(end) {
        Some(line) => put(sink, line.as_bytes(), end),
        None => Exit::OutOfMemory.number(),
    }
}

/// Puts the text of a run that came to this end: its page, or the line in place of it.
pub(crate) fn tell<K: Sink>(page: &[u8], end: Exit, sink: &mut K) -> u8
    ensures { IsPut (text_at page.now end) end result
        (record { bytes = K.bytes sink.old; faults = K.faults sink.old; puts = K.puts sink.old })
        (record { bytes = K.bytes sink.new; faults = K.faults sink.new; puts = K.puts sink.new }) }
{
    match end {
        Exit::Success | Exit::Failure => put(sink, page, end),
        _ => put_line(sink, end),
    }
}
