//! What an attempt is to send, and where to.

ghost use Rattle.std.specs.Prelude.{◌≡◌, length, min};
ghost use Rattle.c_types.specs.Laid.{laid_over};
ghost use Rattle.c_types.specs.Outgoing.{nothing, sending};

use crate::laying::{lay, lay_behind};
use chan_types::Bytes;
use net_addr::Addr;
use std::alloc::Global;

/// The link of datagrams.
const UDP: u64 = 0;

/// What an attempt is to send, and where to.
#[derive(Drop)]
pub struct Outgoing {
    pub link: u64,
    /// The server's address.
    pub address: Addr,
    /// The query's bytes (RFC 1035, section 4.1).
    pub message: Bytes,
}

impl Outgoing {
    /// Nothing, to nowhere.
    pub fn nothing(alloc: Global) -> Outgoing
        ensures { result ≡ nothing }
    {
        Outgoing {
            link: UDP,
            address: Addr::V4(0),
            message: Bytes::new(alloc),
        }
    }

    /// How many bytes it is to send.
    pub fn count(&self) -> usize
        ensures { result ≡ length (sending self.now) }
    {
        let message = self.message.as_slice();
        if self.link == UDP {
            message.len()
        } else {
            message.len() + 2
        }
    }

    /// Lays the bytes that it is to send over the buffer.
    pub fn lay_bytes(&self, out: &mut [u8]) -> usize
        ensures count { result ≡ min (length (sending self.now)) (length out.old) }
        ensures laid { out.new ≡ laid_over (sending self.now) out.old }
    {
        let message = self.message.as_slice();
        if self.link == UDP {
            return lay(message, out);
        }
        let high = (message.len() / 256 % 256) as u8;
        let low = (message.len() % 256) as u8;
        lay_behind(high, low, message, out)
    }
}
