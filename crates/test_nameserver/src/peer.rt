//! A network in memory over one zone is a World that tells its log and its items, and by its origin its zone and its seed.

use crate::peer_world::PeerWorld;
use item_list::NoMemory;
use net_addr::ServerAddr;
use net_world::{Got, Sent, Waited, World, Wrote};

impl World for PeerWorld {
    ghost use Rattle.std.specs.Prelude.{Some};
    ghost use Rattle.test_nameserver.specs.PeerOrigin.{origin_of};

    ghost log = { λ w. Some w.log };

    ghost items = { λ w. Some w.items };

    ghost faults = { λ w. 0 };

    ghost wait_faults = { λ w. 0 };

    ghost reading = { λ w. w.reading };

    ghost origin = { origin_of };

    fn serve(&mut self, server: u32, address: &ServerAddr) -> Result<(), NoMemory> {
        PeerWorld::serve(self, server, address)
    }

    fn now(&mut self) -> Result<u64, NoMemory> {
        PeerWorld::now(self)
    }

    fn word(&mut self) -> Result<u16, NoMemory> {
        PeerWorld::word(self)
    }

    fn send(&mut self, server: u32, bytes: &[u8]) -> Result<Sent, NoMemory> {
        PeerWorld::send(self, server, bytes)
    }

    fn connect(&mut self, server: u32, link: u64) -> Result<Sent, NoMemory> {
        PeerWorld::connect(self, server, link)
    }

    fn write(&mut self, link: u64, bytes: &[u8]) -> Result<Wrote, NoMemory> {
        PeerWorld::write(self, link, bytes)
    }

    fn receive(&mut self) -> Result<Got, NoMemory> {
        PeerWorld::receive(self)
    }

    fn close(&mut self, link: u64) -> Result<(), NoMemory> {
        PeerWorld::close(self, link)
    }

    fn wait(&mut self, until: u64) -> Result<Waited, NoMemory> {
        PeerWorld::wait(self, until)
    }
}
