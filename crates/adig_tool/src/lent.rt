//! A network that is lent, and whose origin tells which loan it is.

use item_list::NoMemory;
use net_addr::ServerAddr;
use net_world::{Got, Sent, Waited, World, Wrote};

/// A World that is lent. No call changes an origin: so where code that is generic in its World was lent this one, it still
/// holds the same loan, and what became of the World that was handed in is known.
#[derive(Drop)]
pub struct LentWorld<'a, W: World> {
    pub world: &'a mut W,
}

impl<W: World> World for LentWorld<'_, W> {
    ghost use Rattle.adig_tool.specs.Loan.{loan_origin};

    ghost log = { λ lent. W.log lent.world.now };

    ghost items = { λ lent. W.items lent.world.now };

    ghost faults = { λ lent. W.faults lent.world.now };

    ghost wait_faults = { λ lent. W.wait_faults lent.world.now };

    ghost reading = { λ lent. W.reading lent.world.now };

    ghost origin = { λ lent. loan_origin lent.world.ghost_name (W.origin lent.world.now) };

    fn serve(&mut self, server: u32, address: &ServerAddr) -> Result<(), NoMemory> {
        self.world.serve(server, address)
    }

    fn now(&mut self) -> Result<u64, NoMemory> {
        self.world.now()
    }

    fn word(&mut self) -> Result<u16, NoMemory> {
        self.world.word()
    }

    fn send(&mut self, server: u32, bytes: &[u8]) -> Result<Sent, NoMemory> {
        self.world.send(server, bytes)
    }

    fn connect(&mut self, server: u32, link: u64) -> Result<Sent, NoMemory> {
        self.world.connect(server, link)
    }

    fn write(&mut self, link: u64, bytes: &[u8]) -> Result<Wrote, NoMemory> {
        self.world.write(link, bytes)
    }

    fn receive(&mut self) -> Result<Got, NoMemory> {
        self.world.receive()
    }

    fn close(&mut self, link: u64) -> Result<(), NoMemory> {
        self.world.close(link)
    }

    fn wait(&mut self, until: u64) -> Result<Waited, NoMemory> {
        self.world.wait(until)
    }
}
