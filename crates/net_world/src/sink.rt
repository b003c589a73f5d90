//! Output, as callers see it.

ghost use Rattle.std.specs.Prelude.{◌≡◌, List, ℕ, Option};
ghost use Rattle.net_world.specs.declared.put_call.PutCall.{PutCall};
ghost use Rattle.net_world.specs.Cause.{HasCause, is_not_put};
ghost use Rattle.net_world.specs.Logs.{Logs};
ghost use Rattle.net_world.specs.Sink.{Puts};

use crate::answers::PutEnd;
use dns_message::NoMemory;

/// Where output goes. After `NoMemory` it is as before.
pub trait Sink {
    /// All bytes that were put, where they are told.
    ghost bytes: { Self → Option (List ℕ) };

    /// How often a put failed.
    ghost faults: { Self → ℕ };

    /// All its puts with their ends, where it tells them.
    ghost puts: { Self → Option (List PutCall) };

    /// Adds these bytes at the end.
    fn put(&mut self, text: &[u8]) -> Result<PutEnd, NoMemory>
        ensures bytes { Puts (bytes self.old) (bytes self.new) text.now result }
        ensures cause { HasCause (faults self.old) (faults self.new) is_not_put result }
        ensures puts { Logs (puts self.old) (puts self.new) result (λ end. record { text = text.now; end = end }) };
}
