//! The listener of the program, which says what room it got.

use item_list::NoMemory;
use net_world::Sent;
use sock_listener::RealListener;
use std::net::Net;
use std::time::Clock;
use test_nameserver::{Heard, Listener};

/// A listener that says on standard error, once it listens, how large its receive buffer is.
#[derive(Drop)]
pub struct Telling<R> {
    rt: R,
    inner: RealListener<R>,
}

impl<R: Net + Clock + AllocGlobal + Eprint + Copy> Telling<R> {
    /// A listener that doesn't listen yet.
    pub fn make(rt: R) -> Telling<R> {
        Telling {
            rt,
            inner: RealListener::make(rt),
        }
    }

    /// Says how large the buffer is, where it listens and the system tells it. Standard error may be closed.
    fn tell_room(&self) {
        if let Some(size) = self.inner.receive_buffer() {
            let _ = eprintln!(self.rt; "tns: receive buffer of {size} bytes");
        }
    }
}

impl<R: Net + Clock + AllocGlobal + Eprint + Copy> Listener for Telling<R> {
    ghost use Rattle.std.specs.Prelude.{None};

    ghost log = { λ _. None };

    ghost faults = { λ l. l.inner.faults };

    fn listen(&mut self, port: u16) -> Result<Sent, NoMemory> {
        let sent = self.inner.listen(port)?;
        self.tell_room();
        Ok(sent)
    }

    fn next(&mut self) -> Result<Heard, NoMemory> {
        self.inner.next()
    }

    fn reply(&mut self, bytes: &[u8]) -> Result<Sent, NoMemory> {
        self.inner.reply(bytes)
    }
}
