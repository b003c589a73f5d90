//! How a run's text is put, once, and what the exit status is then.

ghost use Rattle.areplay_tool.specs.Ending.{number_of};
ghost use Rattle.areplay_tool.specs.Put.{IsPut};

use crate::ending::End;
use item_list::NoMemory;
use net_world::{PutEnd, Sink};

/// Puts the text of a run that came to this end, and answers the exit status.
pub(crate) fn put<K: Sink>(sink: &mut K, text: &[u8], end: End) -> u8
    ensures { IsPut text.now (number_of end) result
        (record { bytes = K.bytes sink.old; faults = K.faults sink.old; puts = K.puts sink.old })
        (record { bytes = K.bytes sink.new; faults = K.faults sink.new; puts = K.puts sink.new }) }
{
    match sink.put(text) {
        Ok(PutEnd::Done) => end.number(),
        Ok(PutEnd::Failed) => End::SinkFault.number(),
        Err(NoMemory) => End::OutOfMemory.number(),
    }
}
