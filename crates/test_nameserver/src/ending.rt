//! How a run of the server's program ends: its exit status, and the text that is put.

ghost use Rattle.std.specs.Prelude.{◌≡◌, ◌≢◌, ◌⊎◌, [], IfSome, MatchOption};
ghost use Rattle.net_world.specs.Cause.{Rose};
ghost use Rattle.test_nameserver.specs.Ending.{number_of};
ghost use Rattle.test_nameserver.specs.Output.{GrowsBy, GrowsByPart, PutsText, PutsTextOf, text_for};

use item_list::NoMemory;
use net_world::{PutEnd, Sink};

/// All messages were taken and answered, and nothing was put.
pub const SUCCESS: u8 = 0;

/// The words aren't of the form that is understood.
pub const USAGE: u8 = 2;

/// The zone's file can't be read, isn't there, or is too large.
pub const FILE_FAULT: u8 = 3;

/// The output failed.
pub const SINK_FAULT: u8 = 4;

/// Want of memory.
pub const OUT_OF_MEMORY: u8 = 5;

/// The network failed.
pub const SOCKET_FAULT: u8 = 6;

/// A line of the zone's file is no record.
pub const BAD_ZONE: u8 = 8;

/// How a run came to its end, before its text was put.
#[derive(Clone, Copy, Debug, PartialEq, Eq)]
pub(crate) enum End {
    Served,
    Refused,
    FileFault,
    NoMemory,
    SocketFault,
    BadZone,
}

impl End {
    /// The exit status.
    fn number(self) -> u8
        ensures { result ≡ number_of self }
    {
        match self {
            End::Served => SUCCESS,
            End::Refused => USAGE,
            End::FileFault => FILE_FAULT,
            End::NoMemory => OUT_OF_MEMORY,
            End::SocketFault => SOCKET_FAULT,
            End::BadZone => BAD_ZONE,
        }
    }

    /// The text that is put, or none.
    fn text(self) -> Option<&'static str>
        ensures text { MatchOption result (text_for (number_of self) ≡ [])
            (λ text. text.now ≡ text_for (number_of self)) }
        ensures some { IfSome result (λ _. text_for (number_of self) ≢ []) }
        ensures memory { IfSome result (λ _. number_of self ≢ OUT_OF_MEMORY) }
    {
        match self {
            End::Served | End::NoMemory => None,
            End::Refused => Some("tns: usage\n"),
            End::FileFault => Some("tns: file fault\n"),
            End::SocketFault => Some("tns: socket fault\n"),
            End::BadZone => Some("tns: bad zone\n"),
        }
    }

    /// Puts the text of this end, and answers the exit status.
    pub(crate) fn tell<K: Sink>(self, sink: &mut K) -> u8
        ensures known { (result ≡ number_of self) ⊎ (result ≡ SINK_FAULT)
            ⊎ (result ≡ OUT_OF_MEMORY) }
        ensures whole { result ≢ SINK_FAULT → result ≢ OUT_OF_MEMORY
            → GrowsBy (K.bytes sink.old) (K.bytes sink.new) (text_for (number_of self)) }
        ensures part { GrowsByPart (K.bytes sink.old) (K.bytes sink.new)
            (text_for (number_of self)) }
        ensures memory { result ≡ OUT_OF_MEMORY → K.bytes sink.new ≡ K.bytes sink.old }
        ensures sink_fault { result ≡ SINK_FAULT → Rose (K.faults sink.old) (K.faults sink.new) }
        ensures puts { PutsTextOf (number_of self) result (K.puts sink.old) (K.puts sink.new) }
    {
        match self.text() {
            Some(text) => put(sink, text.as_bytes(), self.number()),
            None => self.number(),
        }
    }
}

/// Puts the text, and answers the exit status: this one where all was put.
fn put<K: Sink>(sink: &mut K, text: &[u8], status: u8) -> u8
    ensures known { (result ≡ status) ⊎ (result ≡ SINK_FAULT) ⊎ (result ≡ OUT_OF_MEMORY) }
    ensures whole { result ≢ SINK_FAULT → result ≢ OUT_OF_MEMORY
        → GrowsBy (K.bytes sink.old) (K.bytes sink.new) text.now }
    ensures part { GrowsByPart (K.bytes sink.old) (K.bytes sink.new) text.now }
    ensures memory { result ≡ OUT_OF_MEMORY
        → (status ≡ OUT_OF_MEMORY) ⊎ (K.bytes sink.new ≡ K.bytes sink.old) }
    ensures sink_fault { result ≡ SINK_FAULT
        → (status ≡ SINK_FAULT) ⊎ Rose (K.faults sink.old) (K.faults sink.new) }
    ensures puts { PutsText text.now status result (K.puts sink.old) (K.puts sink.new) }
{
    match sink.put(text) {
        Ok(PutEnd::Done) => status,
        Ok(PutEnd::Failed) => SINK_FAULT,
        Err(NoMemory) => OUT_OF_MEMORY,
    }
}
