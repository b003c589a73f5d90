//! A server's side of the network, as callers see it.

ghost use Rattle.std.specs.Prelude.{◌≡◌, List, ℕ, Option};
ghost use Rattle.net_world.specs.Cause.{HasCause, is_not_sent};
ghost use Rattle.test_nameserver.specs.Listening.{Logs, is_not_heard};
ghost use Rattle.test_nameserver.specs.declared.listener.ListenerCall.{ListenerCall};
ghost use Rattle.test_nameserver.specs.declared.listener.ListenerCall.TheVariants.{Listen, Next, Reply};

use item_list::{Bytes, NoMemory};
use net_world::Sent;

/// What a server heard.
#[derive(Debug, Drop, PartialEq)]
pub enum Heard {
    /// A message, without its length where it came over TCP.
    Message { tcp: bool, bytes: Bytes },
    /// The network failed.
    Failed,
}

/// One call of a listener, with its answer.
#[derive(Debug, Drop, PartialEq)]
pub enum ListenerCall {
    Listen { port: u16, sent: Sent },
    Next { heard: Heard },
    Reply { bytes: Bytes, sent: Sent },
}

/// A server's side of the network. After `NoMemory` it is as before.
pub trait Listener {
    /// All its calls with their answers, where it tells them.
    ghost log: { Self → Option (List ListenerCall) };

    /// How often it failed.
    ghost faults: { Self → ℕ };

    /// Listens on this port of 127.0.0.1, over UDP and TCP.
    fn listen(&mut self, port: u16) -> Result<Sent, NoMemory>
        ensures log { Logs (log self.old) (log self.new) result (λ sent. Listen port sent) }
        ensures cause { HasCause (faults self.old) (faults self.new) is_not_sent result };

    /// Waits for the next message.
    fn next(&mut self) -> Result<Heard, NoMemory>
        ensures log { Logs (log self.old) (log self.new) result (λ heard. Next heard) }
        ensures cause { HasCause (faults self.old) (faults self.new) is_not_heard result };

    /// Answers the sender of the last message. The reply may be lost.
    fn reply(&mut self, bytes: &[u8]) -> Result<Sent, NoMemory>
        ensures log { Logs (log self.old) (log self.new) result (λ sent. Reply bytes.now sent) }
        ensures cause { HasCause (faults self.old) (faults self.new) is_not_sent result };
}
