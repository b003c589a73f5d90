//! Reading what was received.

ghost use Rattle.std.specs.Prelude.{◌≡◌, IfOk};
ghost use Rattle.net_world.specs.World.{is_of_link};

use crate::answers::Got;
use dns_message::{Bytes, NoMemory};
use std::alloc::Global;

impl Got {
    /// An equal one.
    pub fn copy(&self, alloc: Global) -> Result<Got, NoMemory>
        ensures { IfOk result (λ got. got ≡ self.now) }
    {
        Ok(match self {
            Got::Datagram(server, bytes) => {
                Got::Datagram(*server, Bytes::of(alloc, bytes.as_slice())?)
            }
            Got::Piece(link, bytes) => Got::Piece(*link, Bytes::of(alloc, bytes.as_slice())?),
            Got::Ended(link) => Got::Ended(*link),
            Got::Nothing => Got::Nothing,
            Got::Failed(server, link) => Got::Failed(*server, *link),
        })
    }

    /// Whether it is of the link with this number.
    pub fn is_of_link(&self, link: u64) -> bool
        ensures { result ≡ is_of_link link self.now }
    {
        match self {
            Got::Datagram(_, _) => false,
            Got::Piece(other, _) => *other == link,
            Got::Ended(other) => *other == link,
            Got::Nothing => false,
            Got::Failed(_, other) => *other == link,
        }
    }
}
