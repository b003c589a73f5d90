//! A network in memory whose server answers each query at once.

ghost use base.Stored.{gnil};
ghost use Rattle.std.specs.Prelude.{None};

use item_list::{Bytes, NoMemory};
use net_addr::ServerAddr;
use net_world::{Got, Sent, Waited, World, Wrote};
use std::alloc::Global;

/// The reply to a query for the address of example.com: one record and, in an OPT record, a cookie of the client's 8 bytes and
/// of 8 bytes of the server's (RFC 1035, section 4.1; RFC 6891, section 6.1.2; RFC 7873, section 4).
const REPLY: &[u8; 76] =
    b"\0\0\x81\x80\0\x01\0\x01\0\0\0\x01\x07example\x03com\0\0\x01\0\x01\xc0\x0c\0\x01\0\x01\0\0\x01\x2c\0\x04\xc0\0\x02\x01\0\0\x29\x04\xd0\0\0\0\0\0\x14\0\x0a\0\x10\x01\x02\x03\x04\x05\x06\x07\x08\xf1\xf2\xf3\xf4\xf5\xf6\xf7\xf8";

/// The first random word. With the three that follow it makes the client cookie of the reply.
const FIRST_WORD: u16 = 0x0102;

/// How far two random words are apart.
const STRIDE: u16 = 0x0202;

/// A network of one server, which answers each query at once. It tells no log.
#[derive(Drop)]
pub struct Near {
    alloc: Global,
    /// The reply, with the identifier of the last query.
    reply: [u8; 76],
    /// The random word that is drawn next.
    word: u16,
}

impl Near {
    pub fn make(alloc: Global) -> Near {
        Near {
            alloc,
            reply: *REPLY,
            word: FIRST_WORD,
        }
    }
}

impl World for Near {
    ghost log = { λ near. None };

    ghost items = { λ near. None };

    ghost faults = { λ near. 0 };

    ghost wait_faults = { λ near. 0 };

    ghost reading = { λ near. 0 };

    ghost origin = { λ near. gnil };

    fn serve(&mut self, _server: u32, _address: &ServerAddr) -> Result<(), NoMemory> {
        Ok(())
    }

    fn now(&mut self) -> Result<u64, NoMemory> {
        Ok(0)
    }

    fn word(&mut self) -> Result<u16, NoMemory> {
        let word = self.word;
        self.word = word.wrapping_add(STRIDE);
        Ok(word)
    }

    fn send(&mut self, _server: u32, bytes: &[u8]) -> Result<Sent, NoMemory> {
        if let [high, low, ..] = bytes {
            self.reply[0] = *high;
            self.reply[1] = *low;
        }
        Ok(Sent::Sent)
    }

    fn connect(&mut self, _server: u32, _link: u64) -> Result<Sent, NoMemory> {
        Ok(Sent::Sent)
    }

    fn write(&mut self, _link: u64, bytes: &[u8]) -> Result<Wrote, NoMemory> {
        Ok(Wrote::Count(bytes.len()))
    }

    fn receive(&mut self) -> Result<Got, NoMemory> {
        Ok(Got::Datagram(0, Bytes::of(self.alloc, &self.reply)?))
    }

    fn close(&mut self, _link: u64) -> Result<(), NoMemory> {
        Ok(())
    }

    fn wait(&mut self, _until: u64) -> Result<Waited, NoMemory> {
        Ok(Waited::Woken)
    }
}
