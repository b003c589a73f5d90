//! The network, the clock and the random words of the system.

ghost use Rattle.std.specs.Prelude.{◌≡◌, ◌≤◌, length, filter, not, IfOk, IsOk, IsOkAnd, OnErr};
ghost use Rattle.std.specs.Option.{is_some};
ghost use Rattle.net_world.specs.Cause.{is_not_sent, is_not_written, is_link_failed, is_not_waited};
ghost use Rattle.net_world.specs.World.{IsPartOf, IsWhole, is_of_link};
ghost use Rattle.sock_engine.specs.Inbox.{IsReceived, byte_count};
ghost use Rattle.sock_engine.specs.State.{fresh_state, CountsFault, CountsSend, CountsReceive, CountsWait, FailsUnmade, GivesNext, Keeps, KeepsFirst, ReadsOn};

use crate::clock::clock_millis;
use crate::local_failure::{LocalFailure, first_failure};
use crate::network::Network;
use dns_message::NoMemory;
use net_addr::ServerAddr;
use net_world::{Got, Sent, Waited, World, Wrote, raise};
use std::marker::Model;
use std::net::Net;
use std::random::RandomSource;
use std::time::Clock;

/// The real World: a connected UDP socket for each server, a TCP stream for each link, the monotonic clock, and words of
/// a generator that the system seeds. Contracts see how often it failed, what came and wasn't given yet, and the clock.
#[derive(Drop)]
pub struct SockWorld<R> {
    rt: R,
    network: Option<Network>,
    faults: u64,
    wait_faults: u64,
    reading: u64,
    local: Option<LocalFailure>,
}

impl<R> Model for SockWorld<R> {
    ghost use Rattle.std.specs.Option.{is_some};
    ghost use Rattle.sock_engine.specs.State.{SockState, came_of, moment_of};

    ghost Value = { SockState };

    ghost view = { λ w. record { works = is_some w.network; faults = w.faults; wait_faults = w.wait_faults; reading = w.reading; came = came_of w.network; moment = moment_of w.reading w.network; local = w.local } };
}

impl<R: Net + Clock + RandomSource + AllocGlobal> SockWorld<R> {
    /// A World without servers. Where its poll or its generator can't be made, every send, connect and wait fails.
    pub fn make(rt: R) -> Result<SockWorld<R>, NoMemory>
    where
        R: Drop,
        ensures fresh { IfOk result (λ world. world ≡ fresh_state world.local) }
    {
        let (network, local) = match Network::make(&rt)? {
            Ok(network) => (Some(network), None),
            Err(failure) => (None, Some(failure)),
        };
        Ok(SockWorld {
            rt,
            network,
            faults: 0,
            wait_faults: 0,
            reading: 0,
            local,
        })
    }

    /// What on this machine failed first, so that a call did, if anything did. That a server refused is no such failure.
    pub fn local_failure(&self) -> Option<LocalFailure>
        ensures { result ≡ self.now.local }
    {
        self.local
    }

    /// Tells the server's address from now on. A socket for another address of this server is closed.
    pub fn serve(&mut self, server: u32, address: &ServerAddr) -> Result<(), NoMemory>
        ensures { self.new ≡ self.old }
    {
        match &mut self.network {
            Some(network) => network.serve(server, address),
            None => Ok(()),
        }
    }

    /// Reads the clock, in milliseconds. As long as something that was taken isn't given it stands still, so that nothing
    /// expires by it whose reply has come; so does a clock that can't be read.
    pub fn now(&mut self) -> Result<u64, NoMemory>
        ensures { IsOkAnd result (ReadsOn self.old self.new) }
    {
        let clock = self.clock();
        let moment = match &mut self.network {
            Some(network) => network.now(&self.rt, clock),
            None => clock,
        };
        self.reading = self.reading.max(moment);
        self.note_failure();
        Ok(self.reading)
    }

    /// Draws a random word. Without a generator it is 0, and nothing is ever sent.
    pub fn word(&mut self) -> Result<u16, NoMemory>
        ensures ok { IsOk result }
        ensures state { self.new ≡ self.old }
    {
        Ok(match &mut self.network {
            Some(network) => network.word(),
            None => 0,
        })
    }

    /// Sends a datagram to the server.
    pub fn send(&mut self, server: u32, bytes: &[u8]) -> Result<Sent, NoMemory>
        ensures ok { IsOkAnd result (CountsSend self.old self.new) }
        ensures unmade { IfOk result (FailsUnmade is_not_sent self.old) }
    {
        let sent = match &mut self.network {
            Some(network) => network.send(&self.rt, server, bytes),
            None => Sent::Failed,
        };
        self.faults = raise(is_unsent(sent), self.faults);
        self.note_failure();
        Ok(sent)
    }

    /// Begins a TCP connection to the server, under this number.
    pub fn connect(&mut self, server: u32, link: u64) -> Result<Sent, NoMemory>
        ensures ok { IfOk result (CountsFault is_not_sent self.old self.new) }
        ensures unmade { IfOk result (FailsUnmade is_not_sent self.old) }
        ensures err { OnErr result (self.new ≡ self.old) }
    {
        let sent = match &mut self.network {
            Some(network) => network.connect(&self.rt, server, link)?,
            None => Sent::Failed,
        };
        self.faults = raise(is_unsent(sent), self.faults);
        self.note_failure();
        Ok(sent)
    }

    /// Writes to the link. One that has no room takes 0 bytes.
    pub fn write(&mut self, link: u64, bytes: &[u8]) -> Result<Wrote, NoMemory>
        ensures ok { IsOkAnd result (CountsFault is_not_written self.old self.new) }
        ensures part { IfOk result (IsPartOf (length bytes.now)) }
        ensures unmade { IfOk result (FailsUnmade is_not_written self.old) }
    {
        let wrote = match &mut self.network {
            Some(network) => network.write(link, bytes),
            None => Wrote::Failed,
        };
        self.faults = raise(is_unwritten(wrote), self.faults);
        self.note_failure();
        Ok(wrote)
    }

    /// Receives the next datagram, or bytes or the end of a link. A datagram that can't answer what was sent isn't received.
    pub fn receive(&mut self) -> Result<Got, NoMemory>
        ensures ok { IfOk result (CountsReceive self.old self.new) }
        ensures whole { IfOk result IsWhole }
        ensures taken { IfOk result IsReceived }
        ensures few { IfOk result (λ _. byte_count self.new.came ≤ 4259839) }
        ensures err { OnErr result (Keeps self.old self.new) }
    {
        let got = self.take_next()?;
        self.faults = raise(is_failure(&got), self.faults);
        self.note_failure();
        Ok(got)
    }

    /// The next of what came.
    #[tactic(auto, using(crate::proofs::BringsLemmas::none_given))]
    fn take_next(&mut self) -> Result<Got, NoMemory>
        ensures ok { IfOk result (GivesNext self.old self.new) }
        ensures taken { IfOk result IsReceived }
        ensures few { IfOk result (λ _. byte_count self.new.came ≤ 4259839) }
        ensures err { OnErr result (Keeps self.old self.new) }
    {
        let Some(network) = &mut self.network else {
            return Ok(Got::Nothing);
        };
        network.receive(&self.rt)
    }

    /// Closes the link. Nothing of it is received any more.
    pub fn close(&mut self, link: u64) -> Result<(), NoMemory>
        ensures ok { IsOk result }
        ensures state { self.new
            ≡ record self.old { came = filter (λ got. not (is_of_link link got)) self.old.came } }
    {
        if let Some(network) = &mut self.network {
            network.close(link);
        }
        Ok(())
    }

    /// Waits until something can be received, or until this moment of the clock. It may return before.
    pub fn wait(&mut self, until: u64) -> Result<Waited, NoMemory>
        ensures ok { IsOkAnd result (CountsWait self.old self.new) }
        ensures unmade { IfOk result (FailsUnmade is_not_waited self.old) }
    {
        let clock = self.clock();
        let waited = match &mut self.network {
            Some(network) => network.wait(&self.rt, clock, until),
            None => Waited::Failed,
        };
        self.wait_faults = raise(is_unwaited(waited), self.wait_faults);
        self.note_failure();
        Ok(waited)
    }

    /// Takes over the network's first failure of this machine, if none is known yet.
    fn note_failure(&mut self)
        ensures state { self.new ≡ record self.old { local = self.new.local } }
        ensures first { KeepsFirst self.old.local self.new.local }
    {
        if let Some(network) = &self.network {
            self.local = first_failure(self.local, network.failure());
        }
    }

    /// The system's clock, which is never behind what was shown.
    fn clock(&self) -> u64
        ensures { self.now.reading ≤ result }
    {
        match clock_millis(&self.rt) {
            Some(millis) => millis.max(self.reading),
            None => self.reading,
        }
    }
}

fn is_unsent(sent: Sent) -> bool
    ensures { result ≡ is_not_sent sent }
{
    match sent {
        Sent::Sent => false,
        Sent::Failed => true,
    }
}

fn is_unwritten(wrote: Wrote) -> bool
    ensures { result ≡ is_not_written wrote }
{
    match wrote {
        Wrote::Count(_) => false,
        Wrote::Failed => true,
    }
}

fn is_failure(got: &Got) -> bool
    ensures { result ≡ is_link_failed got.now }
{
    match got {
        Got::Datagram(_, _) | Got::Piece(_, _) | Got::Ended(_) | Got::Nothing => false,
        Got::Failed(_, _) => true,
    }
}

fn is_unwaited(waited: Waited) -> bool
    ensures { result ≡ is_not_waited waited }
{
    match waited {
        Waited::Woken => false,
        Waited::Failed => true,
    }
}

impl<R: Net + Clock + RandomSource + AllocGlobal> World for SockWorld<R> {
    ghost use base.Stored.{gnil};
    ghost use Rattle.std.specs.Prelude.{None};

    ghost log = { λ _. None };

    ghost items = { λ _. None };

    ghost faults = { λ world. world.faults };

    ghost wait_faults = { λ world. world.wait_faults };

    ghost reading = { λ world. world.reading };

    ghost origin = { λ _. gnil };

    fn serve(&mut self, server: u32, address: &ServerAddr) -> Result<(), NoMemory> {
        SockWorld::serve(self, server, address)
    }

    fn now(&mut self) -> Result<u64, NoMemory> {
        SockWorld::now(self)
    }

    fn word(&mut self) -> Result<u16, NoMemory> {
        SockWorld::word(self)
    }

    fn send(&mut self, server: u32, bytes: &[u8]) -> Result<Sent, NoMemory> {
        SockWorld::send(self, server, bytes)
    }

    fn connect(&mut self, server: u32, link: u64) -> Result<Sent, NoMemory> {
        SockWorld::connect(self, server, link)
    }

    fn write(&mut self, link: u64, bytes: &[u8]) -> Result<Wrote, NoMemory> {
        SockWorld::write(self, link, bytes)
    }

    fn receive(&mut self) -> Result<Got, NoMemory> {
        SockWorld::receive(self)
    }

    fn close(&mut self, link: u64) -> Result<(), NoMemory> {
        SockWorld::close(self, link)
    }

    fn wait(&mut self, until: u64) -> Result<Waited, NoMemory> {
        SockWorld::wait(self, until)
    }
}
