//! A session.

ghost use Rattle.std.specs.Prelude.{◌≡◌, ◌≢◌, ◌≤◌, [], IfOk, List, Ok, Option, false, ℕ};
ghost use Rattle.net_world.specs.Cause.{Rose};
ghost use Rattle.net_world.specs.declared.log.WorldCall.{WorldCall};
ghost use Rattle.event_runner.specs.Running.{Opens};
ghost use Rattle.channel_session.specs.Advancing.{ComesToRest};
ghost use Rattle.channel_session.specs.Left.{pending_of, ready_of};
ghost use Rattle.channel_session.specs.Progressing.{ComesBy, ComesTo, IsComeBy};
ghost use Rattle.channel_session.specs.Sitting.{Moment, ReadsClock, Sitting, moment_of};
ghost use Rattle.channel_session.specs.Stepping.{Rests, Steps, Turns, nothing_by};

use crate::left::{Left, left_on};
use crate::progress::{Progress, Stepped};
use channel_model::Desk;
use event_runner::{Paused, Runner};
use item_list::NoMemory;
use net_world::World;
use resolv_options::Options;
use std::alloc::Global;
use std::marker::Model;

/// Brings one channel over one network from one completed request to the next. Contracts see its runner, whether a turn
/// was made since it last waited, and the last turn's reading of the clock.
#[derive(Drop)]
pub struct Session {
    runner: Runner,
    behind_turn: bool,
    /// The last turn's reading of the clock, in milliseconds, 0 before the first.
    reading: u64,
}

impl Model for Session {
    ghost use Rattle.channel_session.specs.Sitting.{Sitting};

    ghost Value = { Sitting };

    ghost view = { λ s. record { running = s.runner; behind_turn = s.behind_turn; reading = s.reading } };
}

impl Session {
    /// A session that has told the network the servers of these options, for a channel with them. For want of memory it may
    /// have told some of them.
    pub fn make<W: World>(
        alloc: Global,
        world: &mut W,
        options: &Options,
    ) -> Result<Session, NoMemory>
        ensures opens { Opens (λ session. session.running.told) options.now.servers result (W.log world.old)
            (W.log world.new) }
        ensures fresh { IfOk result (λ session. session.running
            ≡ record session.running { reading = 0; broken = false; rows = []; mix = options.now.flags.mix }) }
        ensures unturned { IfOk result (λ session. (session.behind_turn ≡ false) × (session.reading ≡ 0)) }
        ensures waits { W.wait_faults world.new ≡ W.wait_faults world.old }
        ensures origin { W.origin world.new ≡ W.origin world.old }
    {
        Ok(Session {
            runner: Runner::make(alloc, world, options)?,
            behind_turn: false,
            reading: 0,
        })
    }

    /// Makes turns, with pauses between them, until a request has completed or nothing is pending, at most so many; and
    /// answers what it came to. The desk and the network are those of the earlier calls, and nobody else used this network
    /// since; the desk may be used between two calls. What is ready is taken before a turn is made.
    pub fn next<D: Desk, W: World>(
        &mut self,
        desk: &mut D,
        world: &mut W,
        turns: u64,
    ) -> Result<Progress<D::Token>, NoMemory>
        ensures comes_to { ComesTo D.Token.plan D.Token.name turns
            (W.wait_faults world.old) (W.wait_faults world.new) result
            (moment_of (D.known desk.old) self.old (W.log world.old))
            (moment_of (D.known desk.new) self.new (W.log world.new)) }
        ensures waits { W.wait_faults world.old ≤ W.wait_faults world.new }
        ensures origin { W.origin world.new ≡ W.origin world.old }
    {
        let mut left = turns;
        self.next_within(desk, world, &mut left)
    }

    /// The same, where so many turns are left, and those that it makes aren't any more: for one budget of many calls.
    pub fn next_within<D: Desk, W: World>(
        &mut self,
        desk: &mut D,
        world: &mut W,
        left: &mut u64,
    ) -> Result<Progress<D::Token>, NoMemory>
        ensures comes_by { ComesBy D.Token.plan D.Token.name left.old left.new
            (W.wait_faults world.old) (W.wait_faults world.new) result
            (moment_of (D.known desk.old) self.old (W.log world.old))
            (moment_of (D.known desk.new) self.new (W.log world.new)) }
        ensures waits { W.wait_faults world.old ≤ W.wait_faults world.new }
        ensures origin { W.origin world.new ≡ W.origin world.old }
    {
        let turns = *left;
        for _ in 0..turns {
            match desk.take() {
                Some(ticket) => return Ok(Progress::Completed(ticket)),
                None => match self.step(desk, world)? {
                    Stepped::Turned => *left -= 1,
                    Stepped::Over => return Ok(Progress::Over),
                    Stepped::WaitFault => return Ok(Progress::WaitFault),
                    Stepped::Disturbed => return Ok(Progress::Disturbed),
                },
            }
        }
        Ok(settle(desk))
    }

    /// Reads the clock where the run stands, right behind a turn or before the first. The reading is no turn's.
    pub fn read_clock<W: World>(&self, world: &mut W) -> Result<u64, NoMemory>
        ensures reads { ReadsClock result self.now (W.log world.old) (W.log world.new) }
        ensures waits { W.wait_faults world.new ≡ W.wait_faults world.old }
        ensures origin { W.origin world.new ≡ W.origin world.old }
    {
        world.now()
    }

    /// The last turn's reading of the clock, in milliseconds, 0 before the first turn.
    pub fn reading(&self) -> u64
        ensures { result ≡ self.now.reading }
    {
        self.reading
    }

    /// A pause, if a turn was made since it last waited, and then a turn, if a request is pending.
    fn step<D: Desk, W: World>(&mut self, desk: &mut D, world: &mut W) -> Result<Stepped, NoMemory>
        requires none_ready { ready_of (D.known desk.old) ≡ [] }
        ensures steps { Steps (W.wait_faults world.old) (W.wait_faults world.new) result
            (moment_of (D.known desk.old) self.old (W.log world.old))
            (moment_of (D.known desk.new) self.new (W.log world.new)) }
        ensures waits { W.wait_faults world.old ≤ W.wait_faults world.new }
        ensures origin { W.origin world.new ≡ W.origin world.old }
    {
        let paused = self.rest(desk, world)?;
        if let Paused::WaitFault = paused {
            return Ok(Stepped::WaitFault);
        }
        match left_on(desk) {
            Left::Pending => {
                self.turn(desk, world)?;
                Ok(Stepped::Turned)
            }
            Left::Ready => Ok(Stepped::Disturbed),
            Left::Nothing => Ok(nothing_left(paused)),
        }
    }

    /// Pauses, if a turn was made since it last waited.
    fn rest<D: Desk, W: World>(&mut self, desk: &mut D, world: &mut W) -> Result<Paused, NoMemory>
        requires none_ready { ready_of (D.known desk.old) ≡ [] }
        ensures rests { Rests result (moment_of (D.known desk.old) self.old (W.log world.old))
            (moment_of (D.known desk.new) self.new (W.log world.new)) }
        ensures wait_fault { result ≡ Ok Paused.WaitFault
            → Rose (W.wait_faults world.old) (W.wait_faults world.new) }
        ensures waits { W.wait_faults world.old ≤ W.wait_faults world.new }
        ensures origin { W.origin world.new ≡ W.origin world.old }
    {
        if !self.behind_turn {
            return Ok(Paused::Skipped);
        }
        match self.runner.pause(desk, world, u64::MAX)? {
            Paused::Skipped => Ok(Paused::Skipped),
            Paused::Woken => {
                self.behind_turn = false;
                Ok(Paused::Woken)
            }
            Paused::WaitFault => {
                self.behind_turn = false;
                Ok(Paused::WaitFault)
            }
        }
    }

    /// Makes a turn.
    fn turn<D: Desk, W: World>(&mut self, desk: &mut D, world: &mut W) -> Result<(), NoMemory>
        requires some_pending { pending_of (D.known desk.old) ≢ [] }
        ensures turns { (from : Moment) →
            ComesToRest 0 from (moment_of (D.known desk.old) self.old (W.log world.old))
            → Turns result from (moment_of (D.known desk.new) self.new (W.log world.new)) }
        ensures waits { W.wait_faults world.new ≡ W.wait_faults world.old }
        ensures origin { W.origin world.new ≡ W.origin world.old }
    {
        let turned = self.runner.turn(desk, world)?;
        self.behind_turn = true;
        self.reading = turned.reading;
        Ok(())
    }
}

/// What it comes to where nothing is left, by how the pause ended.
fn nothing_left(paused: Paused) -> Stepped
    ensures { result ≡ nothing_by paused }
{
    match paused {
        Paused::Skipped => Stepped::Over,
        Paused::Woken => Stepped::Disturbed,
        Paused::WaitFault => Stepped::WaitFault,
    }
}

/// What it comes to where all turns were made: it takes the first ready request, or looks what is left.
fn settle<D: Desk>(desk: &mut D) -> Progress<D::Token>
    ensures { (sitting : Sitting) (log : Option (List WorldCall)) (faults : ℕ)
        → IsComeBy D.Token.plan D.Token.name 0 0 faults faults result
        (moment_of (D.known desk.old) sitting log) (moment_of (D.known desk.new) sitting log) }
{
    match desk.take() {
        Some(ticket) => Progress::Completed(ticket),
        None => match left_on(desk) {
            Left::Pending => Progress::Stalled,
            Left::Ready => Progress::Stalled,
            Left::Nothing => Progress::Over,
        },
    }
}
