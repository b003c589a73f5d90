//! Output that stays in memory.

ghost use Rattle.std.specs.Prelude.{◌≡◌, [], IfOk, OnErr};
ghost use Rattle.net_world.specs.MemSink.{PutsWhole};

use crate::answers::PutEnd;
use crate::failing::{Failing, raise};
use crate::put_call::PutCall;
use crate::sink::Sink;
use dns_message::{Bytes, NoMemory};
use std::marker::Model;

/// A sink in memory: it keeps all bytes and the puts so far, and the puts that were named at its making fail.
#[derive(Debug, Drop)]
pub struct MemSink {
    bytes: Vec<u8>,
    calls: u64,
    failing: Failing,
    puts: Vec<PutCall>,
}

impl Model for MemSink {
    ghost use Rattle.net_world.specs.MemSink.{SinkState};

    ghost Value = { SinkState };

    ghost view = { λ s. record {
      bytes = s.bytes.items;
      calls = s.calls;
      fails = s.failing.numbers;
      faults = s.failing.faults;
      puts = s.puts.items;
    } };
}

impl MemSink {
    /// An empty sink whose puts with these numbers, from 0, fail. It takes no memory.
    pub fn make(fails: Vec<u64>) -> MemSink
        ensures { result ≡ record { bytes = []; calls = 0; fails = fails.items; faults = 0; puts = [] } }
    {
        let alloc = *fails.allocator();
        MemSink {
            bytes: Vec::new(alloc),
            calls: 0,
            failing: Failing::new(fails),
            puts: Vec::new(alloc),
        }
    }

    /// All bytes that were put.
    pub fn bytes(&self) -> &[u8]
        ensures { result.now ≡ self.now.bytes }
    {
        &self.bytes
    }

    /// The puts so far, with their ends.
    pub fn puts(&self) -> &[PutCall]
        ensures { result.now ≡ self.now.puts }
    {
        self.puts.as_slice()
    }

    /// Adds these bytes at the end. A put that fails adds nothing.
    pub fn put(&mut self, text: &[u8]) -> Result<PutEnd, NoMemory>
        ensures ok { IfOk result (PutsWhole text.now self.old self.new) }
        ensures err { OnErr result (self.new ≡ self.old) }
    {
        let failed = self.failing.fails(self.calls);
        let end = if failed { PutEnd::Failed } else { PutEnd::Done };
        let copy = Bytes::of(*self.puts.allocator(), text)?;
        self.puts.reserve(1)?;
        if !failed {
            self.bytes.extend_from_slice(text)?;
        }
        self.puts.push_reserved(PutCall { text: copy, end });
        self.calls = raise(true, self.calls);
        self.failing.count(failed);
        Ok(end)
    }
}

impl Sink for MemSink {
    ghost use Rattle.std.specs.Prelude.{Some};

    ghost bytes = { λ s. Some s.bytes };

    ghost faults = { λ s. s.faults };

    ghost puts = { λ s. Some s.puts };

    fn put(&mut self, text: &[u8]) -> Result<PutEnd, NoMemory> {
        MemSink::put(self, text)
    }
}
