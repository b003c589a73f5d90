//! The runner.

ghost use Rattle.std.specs.Prelude.{◌≡◌, ◌≤◌, ◌+◌, ◌-◌, ◌^◌, ◌||◌, [], IfOk, IsTrue, Ok, false, is_err, min};
ghost use Rattle.net_world.specs.Cause.{Rose};
ghost use Rattle.event_runner.specs.Goes.{Ends};
ghost use Rattle.event_runner.specs.Running.{Opens, Pauses, run_of};
ghost use Rattle.event_runner.specs.Turning.{IsCutShort, MakesTurn};

use crate::answers::{Paused, Turned};
use crate::kept::Kept;
use crate::opening::tell_all;
use crate::pausing::pause_once;
use crate::turning::turn_once;
use channel_model::Desk;
use item_list::NoMemory;
use net_world::World;
use resolv_options::Options;
use std::alloc::Global;
use std::marker::Model;

/// Brings one channel to its answers over one network.
#[derive(Drop)]
pub struct Runner {
    kept: Kept,
    /// The last turn's reading of the clock, in milliseconds, 0 before the first.
    reading: u64,
    /// Memory was wanting: nothing else is answered from then on.
    broken: bool,
}

impl Model for Runner {
    ghost use Rattle.event_runner.specs.Running.{Running};

    ghost Value = { Running };

    ghost view = { λ r. record { reading = r.reading; broken = r.broken; rows = r.kept.links.items; told = r.kept.told.items; mix = r.kept.mix } };
}

impl Runner {
    /// A runner that has told the network the servers of these options, for a channel with them. For want of memory it may
    /// have told some of them.
    pub fn make<W: World>(
        alloc: Global,
        world: &mut W,
        options: &Options,
    ) -> Result<Runner, NoMemory>
        ensures opens { Opens (λ runner. runner.told) options.now.servers result (W.log world.old)
            (W.log world.new) }
        ensures fresh { IfOk result (λ runner. runner
            ≡ record runner { reading = 0; broken = false; rows = []; mix = options.now.flags.mix }) }
        ensures waits { W.wait_faults world.new ≡ W.wait_faults world.old }
        ensures faults { W.faults world.old ≤ W.faults world.new }
        ensures clock { W.reading world.new ≡ W.reading world.old }
        ensures origin { W.origin world.new ≡ W.origin world.old }
    {
        let told = tell_all(alloc, world, options.servers().as_slice())?;
        Ok(Runner {
            kept: Kept {
                alloc,
                links: Vec::new(alloc),
                told,
                mix: options.flags().mix,
            },
            reading: 0,
            broken: false,
        })
    }

    /// One turn: it reads the clock, receives, lets expire, starts, writes and closes. The desk and the network are those
    /// of the earlier turns, and nobody else used this network since. For want of memory the turn is cut short, and the
    /// runner answers nothing else from then on.
    pub fn turn<D: Desk, W: World>(
        &mut self,
        desk: &mut D,
        world: &mut W,
    ) -> Result<Turned, NoMemory>
        ensures goes { Ends MakesTurn IsCutShort result
            (run_of (D.known desk.old) self.old (W.log world.old))
            (run_of (D.known desk.new) self.new (W.log world.new)) }
        ensures reading { IfOk result (λ turned. self.new.reading ≡ turned.reading) }
        ensures clock { IfOk result (λ turned. W.reading world.old ≤ turned.reading) }
        ensures breaks { self.new.broken ≡ (self.old.broken || is_err result) }
        ensures broken { IsTrue self.old.broken
            → IsTrue (is_err result) × (D.known desk.new ≡ D.known desk.old)
            × (W.log world.new ≡ W.log world.old) }
        ensures waits { W.wait_faults world.new ≡ W.wait_faults world.old }
        ensures faults { W.faults world.old ≤ W.faults world.new }
        ensures origin { W.origin world.new ≡ W.origin world.old }
    {
        if self.broken {
            return Err(NoMemory);
        }
        self.broken = true;
        let turned = turn_once(desk, world, &mut self.kept)?;
        self.broken = false;
        self.reading = turned.reading;
        Ok(turned)
    }

    /// Waits once, up to the earlier of the first deadline and the last turn's reading and `slice` milliseconds, unless there
    /// is something to do or nothing to wait for.
    pub fn pause<D: Desk, W: World>(
        &mut self,
        desk: &mut D,
        world: &mut W,
        slice: u64,
    ) -> Result<Paused, NoMemory>
        ensures pauses { Pauses (min (self.old.reading + slice) (2 ^ 64 - 1)) result
            (D.known desk.old) (D.known desk.new) (W.log world.old) (W.log world.new) }
        ensures wait_fault { result ≡ Ok Paused.WaitFault
            → Rose (W.wait_faults world.old) (W.wait_faults world.new) }
        ensures kept { self.new ≡ record self.old { broken = self.old.broken || is_err result } }
        ensures broken { IsTrue self.old.broken
            → IsTrue (is_err result) × (D.known desk.new ≡ D.known desk.old)
            × (W.log world.new ≡ W.log world.old) }
        ensures waits { W.wait_faults world.old ≤ W.wait_faults world.new }
        ensures faults { W.faults world.old ≤ W.faults world.new }
        ensures clock { W.reading world.new ≡ W.reading world.old }
        ensures origin { W.origin world.new ≡ W.origin world.old }
    {
        if self.broken {
            return Err(NoMemory);
        }
        self.broken = true;
        let paused = pause_once(desk, world, self.reading.saturating_add(slice))?;
        self.broken = false;
        Ok(paused)
    }
}
