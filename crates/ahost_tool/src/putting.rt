//! How a run's text is put, once, and what the exit status is then.

ghost use Rattle.std.specs.Prelude.{◌≡◌, IfOk, Some};
ghost use Rattle.tool_line.specs.Ending.{text_of};
ghost use Rattle.tool_line.specs.Put.{IsPut};
ghost use Rattle.tool_line.specs.Words.{Text};
ghost use Rattle.tool_line.specs.declared.ending.Tool.TheVariants.{Ahost};
ghost use Rattle.ahost_tool.specs.Page.{report_of, text_at};

use crate::outcome::Outcome;
use crate::reporting::{Report, report_of};
use item_list::{Bytes, NoMemory};
use net_world::{PutEnd, Sink};
use run_end::Ended;
use std::alloc::Global;
use tool_line::{Exit, Tool};

/// Puts the text of a run that came to this end, and answers the exit status.
fn put<K: Sink>(sink: &mut K, text: &[u8], end: Exit) -> u8
    ensures { IsPut (Some text.now) end result
        (record { bytes = K.bytes sink.old; faults = K.faults sink.old; puts = K.puts sink.old })
        (record { bytes = K.bytes sink.new; faults = K.faults sink.new; puts = K.puts sink.new }) }
{
    match sink.put(text) {
        Ok(PutEnd::Done) => end.number(),
        Ok(PutEnd::Failed) => Exit::SinkFault.number(),
        Err(NoMemory) => Exit::OutOfMemory.number(),
    }
}

/// Puts the line that stands in place of a page at this end, if there is one.
pub(crate) fn put_line<K: Sink>(sink: &mut K, end: Exit) -> u8
    ensures { IsPut (text_of Ahost end) end result
        (record { bytes = K.bytes sink.old; faults = K.faults sink.old; puts = K.puts sink.old })
        (record { bytes = K.bytes sink.new; faults = K.faults sink.new; puts = K.puts sink.new }) }
{
    match end.text(Tool::Ahost) {
        Some(line) => put(sink, line.as_bytes(), end),
        None => Exit::OutOfMemory.number(),
    }
}

/// Puts the report, if there was memory for it.
fn put_report<K: Sink>(sink: &mut K, report: Result<Bytes, NoMemory>, end: Exit) -> u8
    ensures { (text : Text) → IfOk report (λ made. made ≡ text) → IsPut (Some text) end result
        (record { bytes = K.bytes sink.old; faults = K.faults sink.old; puts = K.puts sink.old })
        (record { bytes = K.bytes sink.new; faults = K.faults sink.new; puts = K.puts sink.new }) }
{
    match report {
        Ok(text) => put(sink, text.as_slice(), end),
        Err(NoMemory) => Exit::OutOfMemory.number(),
    }
}

/// Makes the report of a run that came to this, and puts it.
fn tell_report<K: Sink>(
    alloc: Global,
    report: Report,
    outcome: Outcome,
    end: Exit,
    sink: &mut K,
) -> Ended
    ensures put { IsPut (Some (report_of report outcome.options outcome.journal outcome.calls)) end result.status
        (record { bytes = K.bytes sink.old; faults = K.faults sink.old; puts = K.puts sink.old })
        (record { bytes = K.bytes sink.new; faults = K.faults sink.new; puts = K.puts sink.new }) }
    ensures journal { result.journal ≡ outcome.journal }
    ensures calls { result.calls ≡ outcome.calls }
{
    let (text, outcome) = report_of(alloc, report, outcome);
    let status = put_report(sink, text, end);
    outcome.ended(status)
}

/// Puts the line that stands in place of the report of a run that came to this, if there is one.
fn tell_line<K: Sink>(outcome: Outcome, end: Exit, sink: &mut K) -> Ended
    ensures put { IsPut (text_of Ahost end) end result.status
        (record { bytes = K.bytes sink.old; faults = K.faults sink.old; puts = K.puts sink.old })
        (record { bytes = K.bytes sink.new; faults = K.faults sink.new; puts = K.puts sink.new }) }
    ensures journal { result.journal ≡ outcome.journal }
    ensures calls { result.calls ≡ outcome.calls }
{
    let status = put_line(sink, end);
    outcome.ended(status)
}

/// Puts the text of a run that came to this end, once: its report, or the line in place of it. The exit status is that of the
/// end; 4 where the output failed, and 5 where nothing was put, for want of memory. Journal and answers are handed out in any
/// case.
pub fn tell<K: Sink>(
    alloc: Global,
    report: Report,
    outcome: Outcome,
    end: Exit,
    sink: &mut K,
) -> Ended
    ensures put { IsPut (text_at report outcome.options outcome.journal outcome.calls end) end result.status
        (record { bytes = K.bytes sink.old; faults = K.faults sink.old; puts = K.puts sink.old })
        (record { bytes = K.bytes sink.new; faults = K.faults sink.new; puts = K.puts sink.new }) }
    ensures journal { result.journal ≡ outcome.journal }
    ensures calls { result.calls ≡ outcome.calls }
{
    match end {
        Exit::Success | Exit::Failure => tell_report(alloc, report, outcome, end, sink),
        _ => tell_line(outcome, end, sink),
    }
}
