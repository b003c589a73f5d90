//! A network on which time stands still: whatever isn't answered waits for ever, unless a callback ends it.

use item_list::{Bytes, NoMemory};
use net_addr::ServerAddr;
use net_world::{Got, Sent, Waited, World, Wrote};
use std::alloc::Global;
use std::collections::VecDeque;
use std::thread;

/// The question for `x.test.` A (RFC 1035, section 4.1.2).
const QUESTION: &[u8] = b"\x01x\x04test\0\0\x01\0\x01";

/// A reply to it behind its identifier: 192.0.2.1 (RFC 1035, section 4.1).
const REPLY: &[u8] =
    b"\x81\x80\0\x01\0\x01\0\0\0\0\x01x\x04test\0\0\x01\0\x01\xc0\x0c\0\x01\0\x01\0\0\x01\x2c\0\x04\xc0\0\x02\x01";

/// The first server answers a datagram that asks for `x.test.`; nothing else comes.
#[derive(Drop)]
pub struct Still {
    alloc: Global,
    items: VecDeque<Got>,
}

impl Still {
    pub fn make(alloc: Global) -> Still {
        Still {
            alloc,
            items: VecDeque::new(alloc),
        }
    }
}

impl World for Still {
    ghost use base.Stored.{gnil};
    ghost use Rattle.std.specs.Prelude.{None};

    ghost log = { λ _. None };

    ghost items = { λ _. None };

    ghost faults = { λ _. 0 };

    ghost wait_faults = { λ _. 0 };

    ghost reading = { λ _. 0 };

    ghost origin = { λ _. gnil };

    fn serve(&mut self, _server: u32, _address: &ServerAddr) -> Result<(), NoMemory> {
        Ok(())
    }

    fn now(&mut self) -> Result<u64, NoMemory> {
        Ok(0)
    }

    fn word(&mut self) -> Result<u16, NoMemory> {
        Ok(0x1234)
    }

    fn send(&mut self, server: u32, bytes: &[u8]) -> Result<Sent, NoMemory> {
        if server == 0 && asks(bytes) {
            let reply = reply_to(self.alloc, bytes)?;
            self.items.push_back(Got::Datagram(server, reply))?;
        }
        Ok(Sent::Sent)
    }

    fn connect(&mut self, _server: u32, _link: u64) -> Result<Sent, NoMemory> {
        Ok(Sent::Sent)
    }

    fn write(&mut self, _link: u64, _bytes: &[u8]) -> Result<Wrote, NoMemory> {
        Ok(Wrote::Count(0))
    }

    fn receive(&mut self) -> Result<Got, NoMemory> {
        match self.items.pop_front() {
            Some(Got::Datagram(server, bytes)) => Ok(Got::Datagram(server, bytes)),
            _ => Ok(Got::Nothing),
        }
    }

    fn close(&mut self, _link: u64) -> Result<(), NoMemory> {
        Ok(())
    }

    fn wait(&mut self, _until: u64) -> Result<Waited, NoMemory> {
        thread::yield_now();
        Ok(Waited::Woken)
    }
}

/// Whether the datagram has the question right behind its header of twelve bytes.
fn asks(bytes: &[u8]) -> bool {
    match bytes.get(12..) {
        Some(rest) => rest.starts_with(QUESTION),
        None => false,
    }
}

/// The reply with the identifier of a query.
fn reply_to(alloc: Global, query: &[u8]) -> Result<Bytes, NoMemory> {
    let mut reply = Vec::new(alloc);
    if let Some(identifier) = query.get(..2) {
        reply.extend_from_slice(identifier)?;
    }
    reply.extend_from_slice(REPLY)?;
    Ok(Bytes::from_vec(reply))
}
