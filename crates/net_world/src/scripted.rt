//! A scripted World is a World that tells its log and its items.

use crate::answers::{Got, Sent, Waited, Wrote};
use crate::script_world::ScriptWorld;
use crate::world::World;
use dns_message::NoMemory;
use net_addr::ServerAddr;

impl World for ScriptWorld {
    ghost use base.Stored.{gnil};
    ghost use Rattle.std.specs.Prelude.{Some};
    ghost use Rattle.net_world.specs.Script.{due};

    ghost log = { λ w. Some w.log };

    ghost items = { λ w. Some (due w.clock w.items) };

    ghost faults = { λ w. w.faults };

    ghost wait_faults = { λ w. w.wait_faults };

    ghost reading = { λ w. w.reading };

    ghost origin = { λ _. gnil };

    fn serve(&mut self, server: u32, address: &ServerAddr) -> Result<(), NoMemory> {
        ScriptWorld::serve(self, server, address)
    }

    fn now(&mut self) -> Result<u64, NoMemory> {
        ScriptWorld::now(self)
    }

    fn word(&mut self) -> Result<u16, NoMemory> {
        ScriptWorld::word(self)
    }

    fn send(&mut self, server: u32, bytes: &[u8]) -> Result<Sent, NoMemory> {
        ScriptWorld::send(self, server, bytes)
    }

    fn connect(&mut self, server: u32, link: u64) -> Result<Sent, NoMemory> {
        ScriptWorld::connect(self, server, link)
    }

    fn write(&mut self, link: u64, bytes: &[u8]) -> Result<Wrote, NoMemory> {
        ScriptWorld::write(self, link, bytes)
    }

    fn receive(&mut self) -> Result<Got, NoMemory> {
        ScriptWorld::receive(self)
    }

    fn close(&mut self, link: u64) -> Result<(), NoMemory> {
        ScriptWorld::close(self, link)
    }

    fn wait(&mut self, until: u64) -> Result<Waited, NoMemory> {
        ScriptWorld::wait(self, until)
    }
}
