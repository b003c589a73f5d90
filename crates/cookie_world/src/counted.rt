//! A World whose calls are counted.

ghost use Rattle.std.specs.Prelude.{◌≡◌, ◌+◌, ◌<◌, ◌^◌};
ghost use Rattle.cookie_world.specs.Begun as begun;

use item_list::NoMemory;
use net_addr::ServerAddr;
use net_world::{Got, Sent, Waited, World, Wrote};

/// A World, and how many of its calls were answered since it was taken. By that count its log, where it is told, parts into
/// what it was then and what was added since: so its origin tells how its log began.
#[derive(Drop)]
pub struct CountedWorld<W: World + Drop> {
    pub world: W,
    /// At its greatest, calls answer want of memory.
    pub calls: u64,
}

/// Counts a call, where it answers something.
fn count<T>(calls: &mut u64, answer: &Result<T, NoMemory>)
    requires { calls.old + 1 < 2 ^ 64 }
    ensures { calls.new ≡ calls.old + begun.counted answer.now }
{
    if answer.is_ok() {
        *calls += 1;
    }
}

impl<W: World + Drop> World for CountedWorld<W> {
    ghost use Rattle.cookie_world.specs.Begun.{begun_origin, calls_ago};

    ghost log = { λ c. W.log c.world };

    ghost items = { λ c. W.items c.world };

    ghost faults = { λ c. W.faults c.world };

    ghost wait_faults = { λ c. W.wait_faults c.world };

    ghost reading = { λ c. W.reading c.world };

    ghost origin = { λ c. begun_origin (W.origin c.world) (calls_ago c.calls (W.log c.world)) };

    #[tactic(auto, using(crate::proofs::BegunLemmas::origin_stays, crate::proofs::BegunLemmas::no_cause))]
    fn serve(&mut self, server: u32, address: &ServerAddr) -> Result<(), NoMemory> {
        if self.calls == u64::MAX {
            return Err(NoMemory);
        }
        let answer = self.world.serve(server, address);
        count(&mut self.calls, &answer);
        answer
    }

    #[tactic(auto, using(crate::proofs::BegunLemmas::origin_stays, crate::proofs::BegunLemmas::no_cause))]
    fn now(&mut self) -> Result<u64, NoMemory> {
        if self.calls == u64::MAX {
            return Err(NoMemory);
        }
        let answer = self.world.now();
        count(&mut self.calls, &answer);
        answer
    }

    #[tactic(auto, using(crate::proofs::BegunLemmas::origin_stays, crate::proofs::BegunLemmas::no_cause))]
    fn word(&mut self) -> Result<u16, NoMemory> {
        if self.calls == u64::MAX {
            return Err(NoMemory);
        }
        let answer = self.world.word();
        count(&mut self.calls, &answer);
        answer
    }

    #[tactic(auto, using(crate::proofs::BegunLemmas::origin_stays, crate::proofs::BegunLemmas::no_cause))]
    fn send(&mut self, server: u32, bytes: &[u8]) -> Result<Sent, NoMemory> {
        if self.calls == u64::MAX {
            return Err(NoMemory);
        }
        let answer = self.world.send(server, bytes);
        count(&mut self.calls, &answer);
        answer
    }

    #[tactic(auto, using(crate::proofs::BegunLemmas::origin_stays, crate::proofs::BegunLemmas::no_cause))]
    fn connect(&mut self, server: u32, link: u64) -> Result<Sent, NoMemory> {
        if self.calls == u64::MAX {
            return Err(NoMemory);
        }
        let answer = self.world.connect(server, link);
        count(&mut self.calls, &answer);
        answer
    }

    #[tactic(auto, using(crate::proofs::BegunLemmas::origin_stays, crate::proofs::BegunLemmas::no_cause))]
    fn write(&mut self, link: u64, bytes: &[u8]) -> Result<Wrote, NoMemory> {
        if self.calls == u64::MAX {
            return Err(NoMemory);
        }
        let answer = self.world.write(link, bytes);
        count(&mut self.calls, &answer);
        answer
    }

    #[tactic(auto, using(crate::proofs::BegunLemmas::origin_stays, crate::proofs::BegunLemmas::no_cause))]
    fn receive(&mut self) -> Result<Got, NoMemory> {
        if self.calls == u64::MAX {
            return Err(NoMemory);
        }
        let answer = self.world.receive();
        count(&mut self.calls, &answer);
        answer
    }

    #[tactic(auto, using(crate::proofs::BegunLemmas::origin_stays, crate::proofs::BegunLemmas::no_cause))]
    fn close(&mut self, link: u64) -> Result<(), NoMemory> {
        if self.calls == u64::MAX {
            return Err(NoMemory);
        }
        let answer = self.world.close(link);
        count(&mut self.calls, &answer);
        answer
    }

    #[tactic(auto, using(crate::proofs::BegunLemmas::origin_stays, crate::proofs::BegunLemmas::no_cause))]
    fn wait(&mut self, until: u64) -> Result<Waited, NoMemory> {
        if self.calls == u64::MAX {
            return Err(NoMemory);
        }
        let answer = self.world.wait(until);
        count(&mut self.calls, &answer);
        answer
    }
}
