//! A World that is lent is a World.

use crate::answers::{Got, Sent, Waited, Wrote};
use crate::world::World;
use dns_message::NoMemory;
use net_addr::ServerAddr;

impl<W: World> World for &mut W {
    ghost log = { λ world. W.log world.now };

    ghost items = { λ world. W.items world.now };

    ghost faults = { λ world. W.faults world.now };

    ghost wait_faults = { λ world. W.wait_faults world.now };

    ghost reading = { λ world. W.reading world.now };

    ghost origin = { λ world. W.origin world.now };

    fn serve(&mut self, server: u32, address: &ServerAddr) -> Result<(), NoMemory> {
        (**self).serve(server, address)
    }

    fn now(&mut self) -> Result<u64, NoMemory> {
        (**self).now()
    }

    fn word(&mut self) -> Result<u16, NoMemory> {
        (**self).word()
    }

    fn send(&mut self, server: u32, bytes: &[u8]) -> Result<Sent, NoMemory> {
        (**self).send(server, bytes)
    }

    fn connect(&mut self, server: u32, link: u64) -> Result<Sent, NoMemory> {
        (**self).connect(server, link)
    }

    fn write(&mut self, link: u64, bytes: &[u8]) -> Result<Wrote, NoMemory> {
        (**self).write(link, bytes)
    }

    fn receive(&mut self) -> Result<Got, NoMemory> {
        (**self).receive()
    }

    fn close(&mut self, link: u64) -> Result<(), NoMemory> {
        (**self).close(link)
    }

    fn wait(&mut self, until: u64) -> Result<Waited, NoMemory> {
        (**self).wait(until)
    }
}
