//! Standard output.

ghost use Rattle.std.specs.Prelude.{◌≡◌, IsOkAnd};
ghost use Rattle.net_world.specs.Cause.{is_not_put, raised};

use dns_message::NoMemory;
use net_world::{PutEnd, Sink, raise};
use std::io::Print;
use std::marker::Model;

/// Standard output as a sink. Contracts see how often it failed, and nothing of what it took.
#[derive(Drop)]
pub struct RealSink<R> {
    rt: R,
    faults: u64,
}

impl<R> Model for RealSink<R> {
    ghost use Rattle.std.specs.Prelude.{ℕ};

    ghost Value = { ℕ };

    ghost view = { λ s. s.faults };
}

impl<R: Print> RealSink<R> {
    /// A sink over the standard output of this runtime.
    pub fn make(rt: R) -> RealSink<R>
        ensures { result ≡ 0 }
    {
        RealSink { rt, faults: 0 }
    }

    /// Writes these bytes, all of them or, where it fails, some of the first. Nothing is kept back.
    pub fn put(&mut self, text: &[u8]) -> Result<PutEnd, NoMemory>
        ensures { IsOkAnd result (λ end. self.new ≡ raised (is_not_put end) self.old) }
    {
        let failed = self.rt.write_all(text).is_err();
        self.faults = raise(failed, self.faults);
        Ok(if failed { PutEnd::Failed } else { PutEnd::Done })
    }
}

impl<R: Print> Sink for RealSink<R> {
    ghost use Rattle.std.specs.Prelude.{None};

    ghost bytes = { λ _. None };

    ghost faults = { λ s. s };

    ghost puts = { λ _. None };

    fn put(&mut self, text: &[u8]) -> Result<PutEnd, NoMemory> {
        RealSink::put(self, text)
    }
}
