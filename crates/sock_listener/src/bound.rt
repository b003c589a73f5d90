//! A listener that listens already: a client may ask before the nameserver runs.

use item_list::NoMemory;
use net_world::Sent;
use test_nameserver::{Heard, Listener};

/// A listener that was told its port before, and keeps that one whatever it is told.
#[derive(Drop)]
pub struct Bound<L> {
    pub inner: L,
}

impl<L: Listener> Listener for Bound<L> {
    ghost use Rattle.std.specs.Prelude.{None};

    ghost log = { λ _. None };

    ghost faults = { λ l. L.faults l.inner };

    fn listen(&mut self, _port: u16) -> Result<Sent, NoMemory> {
        Ok(Sent::Sent)
    }

    fn next(&mut self) -> Result<Heard, NoMemory> {
        self.inner.next()
    }

    fn reply(&mut self, bytes: &[u8]) -> Result<Sent, NoMemory> {
        self.inner.reply(bytes)
    }
}
