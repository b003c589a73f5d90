//! A World in memory that goes by a script, and the exact meaning of its calls.

ghost use Rattle.std.specs.Prelude.{◌≡◌, ◌≢◌, ◌≤◌, [], IfOk, OnOk, OnErr, All};
ghost use Rattle.net_world.specs.Script.{at_start, fails_now, due, MayCome};
ghost use Rattle.net_world.specs.ScriptCalls.{Serves, ReadsClock, DrawsNext, Sends, Connects, WritesAll, ReceivesFirst, ClosesLink, WaitsUntil, WakesWell};

use crate::answers::{Got, Sent, Waited, Wrote};
use crate::failing::{Failing, raise};
use crate::log::{WorldCall, WorldLog};
use crate::timed::{Timed, copy_due, drop_link, earliest, take_due};
use dns_message::{Bytes, NoMemory};
use net_addr::ServerAddr;
use std::alloc::Global;
use std::collections::VecDeque;
use std::marker::Model;

/// A World in memory: it gives the words and the items of a script, and the calls that the script names fail.
#[derive(Debug, Drop)]
pub struct ScriptWorld {
    alloc: Global,
    words: VecDeque<u16>,
    items: Vec<Timed>,
    failing: Failing,
    wait_faults: u64,
    clock: u64,
    reading: u64,
    log: WorldLog,
}

impl Model for ScriptWorld {
    ghost use Rattle.std.specs.Prelude.{◌≤◌, All};
    ghost use Rattle.net_world.specs.Script.{ScriptState, MayCome};

    ghost Value = { ScriptState };

    ghost view = { λ w. record {
      words = w.words.items;
      items = w.items.items;
      fails = w.failing.numbers;
      clock = w.clock;
      reading = w.reading;
      faults = w.failing.faults;
      wait_faults = w.wait_faults;
      log = w.log;
    } };

    ghost invariant = { λ w. (w.reading ≤ w.clock) × All (λ item. MayCome item.got) w.items.items };
}

impl ScriptWorld {
    /// A World of this script: the random words, what can be received from which moments on, and the numbers of
    /// the calls that fail. Its clock begins at 0. It takes no memory.
    pub fn make(words: Vec<u16>, items: Vec<Timed>, fails: Vec<u64>) -> ScriptWorld
        requires { All (λ item. MayCome item.got) items.items }
        ensures { result ≡ at_start words.items items.items fails.items }
    {
        let alloc = *words.allocator();
        ScriptWorld {
            alloc,
            words: VecDeque::from_vec(words),
            items,
            failing: Failing::new(fails),
            wait_faults: 0,
            clock: 0,
            reading: 0,
            log: WorldLog::new(alloc),
        }
    }

    /// The calls so far, with their answers.
    pub fn log(&self) -> &WorldLog
        ensures { result.now ≡ self.now.log }
    {
        &self.log
    }

    /// Tells the server's address, which nothing here asks for.
    pub fn serve(&mut self, server: u32, address: &ServerAddr) -> Result<(), NoMemory>
        ensures ok { OnOk result (Serves server address.now self.old self.new) }
        ensures err { OnErr result (self.new ≡ self.old) }
    {
        self.log.push(WorldCall::Serve {
            server,
            address: *address,
        })
    }

    /// Reads the clock, which only a wait moves.
    pub fn now(&mut self) -> Result<u64, NoMemory>
        ensures ok { IfOk result (ReadsClock self.old self.new) }
        ensures err { OnErr result (self.new ≡ self.old) }
        ensures never_back { self.old.reading ≤ self.old.clock }
    {
        let reading = self.clock;
        self.log.push(WorldCall::Now { reading })?;
        self.reading = reading;
        Ok(reading)
    }

    /// The next word of the script, and 0 past its end.
    pub fn word(&mut self) -> Result<u16, NoMemory>
        ensures ok { IfOk result (DrawsNext self.old self.new) }
        ensures err { OnErr result (self.new ≡ self.old) }
    {
        let word = self.words.front().copied().unwrap_or(0);
        self.log.push(WorldCall::Word { word })?;
        let _ = self.words.pop_front();
        Ok(word)
    }

    /// Sends a datagram, which nobody receives.
    pub fn send(&mut self, server: u32, bytes: &[u8]) -> Result<Sent, NoMemory>
        ensures ok { IfOk result (Sends server bytes.now self.old self.new) }
        ensures err { OnErr result (self.new ≡ self.old) }
    {
        let failed = self.fails();
        let sent = if failed { Sent::Failed } else { Sent::Sent };
        let bytes = Bytes::of(self.alloc, bytes)?;
        self.log.push(WorldCall::Send {
            server,
            bytes,
            sent,
        })?;
        self.failing.count(failed);
        Ok(sent)
    }

    /// Begins a link to the server.
    pub fn connect(&mut self, server: u32, link: u64) -> Result<Sent, NoMemory>
        ensures ok { IfOk result (Connects server link self.old self.new) }
        ensures err { OnErr result (self.new ≡ self.old) }
    {
        let failed = self.fails();
        let sent = if failed { Sent::Failed } else { Sent::Sent };
        self.log.push(WorldCall::Connect { server, link, sent })?;
        self.failing.count(failed);
        Ok(sent)
    }

    /// Writes to the link, which takes all bytes.
    pub fn write(&mut self, link: u64, bytes: &[u8]) -> Result<Wrote, NoMemory>
        ensures ok { IfOk result (WritesAll link bytes.now self.old self.new) }
        ensures err { OnErr result (self.new ≡ self.old) }
    {
        let failed = self.fails();
        let wrote = if failed {
            Wrote::Failed
        } else {
            Wrote::Count(bytes.len())
        };
        let bytes = Bytes::of(self.alloc, bytes)?;
        self.log.push(WorldCall::Write { link, bytes, wrote })?;
        self.failing.count(failed);
        Ok(wrote)
    }

    /// Takes the first item that can be received. One that fails takes none.
    pub fn receive(&mut self) -> Result<Got, NoMemory>
        ensures ok { IfOk result (ReceivesFirst self.old self.new) }
        ensures err { OnErr result (self.new ≡ self.old) }
        ensures script { All (λ item. MayCome item.got) self.old.items }
    {
        let failed = self.fails();
        let got = if failed {
            Got::Failed(0, 0)
        } else {
            copy_due(self.alloc, &self.items, self.clock)?
        };
        self.log.push(WorldCall::Receive { got })?;
        self.failing.count(failed);
        Ok(if failed {
            Got::Failed(0, 0)
        } else {
            take_due(&mut self.items, self.clock)
        })
    }

    /// Closes the link: its items can be received no more, and no wait looks at them.
    pub fn close(&mut self, link: u64) -> Result<(), NoMemory>
        ensures ok { OnOk result (ClosesLink link self.old self.new) }
        ensures err { OnErr result (self.new ≡ self.old) }
    {
        self.log.push(WorldCall::Close { link })?;
        drop_link(&mut self.items, link);
        Ok(())
    }

    /// Puts the clock to the earlier of this moment and the next item's, but never back. So it stays where something can
    /// be received, and where the wait fails.
    pub fn wait(&mut self, until: u64) -> Result<Waited, NoMemory>
        ensures ok { IfOk result (WaitsUntil until self.old self.new) }
        ensures err { OnErr result (self.new ≡ self.old) }
        ensures at_once { due self.old.clock self.old.items ≢ [] → self.new.clock ≡ self.old.clock }
        ensures woken { IfOk result (WakesWell until self.new) }
    {
        if self.fails() {
            self.log.push(WorldCall::Wait {
                until,
                waited: Waited::Failed,
            })?;
            self.wait_faults = raise(true, self.wait_faults);
            return Ok(Waited::Failed);
        }
        self.log.push(WorldCall::Wait {
            until,
            waited: Waited::Woken,
        })?;
        self.clock = self.clock.max(earliest(&self.items, until));
        Ok(Waited::Woken)
    }

    fn fails(&self) -> bool
        ensures { result ≡ fails_now self.now }
    {
        self.failing.fails(self.log.calls().len() as u64)
    }
}
