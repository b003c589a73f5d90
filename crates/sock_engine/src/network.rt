//! The sockets of all servers and links, one poll over them, and the generator.

ghost use Rattle.std.specs.Prelude.{◌≡◌, ◌≢◌, ◌≤◌, [], length, filter, not, IfOk, OnErr};
ghost use mathlib.Core.List.{IsPrefix};
ghost use Rattle.net_world.specs.World.{IsPartOf, is_of_link};
ghost use Rattle.net_world.specs.declared.answers.Waited.TheVariants.{Woken};
ghost use Rattle.sock_engine.specs.Inbox.{GivesFirst, IsReceived, byte_count};

use crate::clock::clock_millis;
use crate::ends::{Moved, patience, wrote_of};
use crate::inbox::Inbox;
use crate::link::Link;
use crate::local_failure::{LocalFailure, first_failure, local_failure};
use crate::peer::peer_of;
use crate::served::Served;
use crate::watch::Watch;
use dns_message::NoMemory;
use mio::{Events, Poll};
use net_addr::ServerAddr;
use net_world::{Got, Sent, Waited, Wrote};
use rand::rngs::StdRng;
use rand::{RngExt, make_rng};
use std::alloc::Global;
use std::io;
use std::net::{Net, SocketAddr};
use std::random::RandomSource;
use std::time::{Clock, Duration};

/// How many events a poll tells at most. What is left is told by the next.
const EVENTS_MOST: usize = 1_024;

/// After so many sends the servers' sockets are looked at, since a window of queries may fill a socket's buffer with
/// replies before the next receive.
const SENDS_MOST: u32 = 256;

/// Behind so many milliseconds without a poll a look makes one, so that no socket is passed over that was told by none.
const POLL_MILLIS: u64 = 10;

/// How long a wait lasts at most while datagrams wait to be sent, in milliseconds.
const SPREAD_MILLIS: u64 = 1;

/// How many pieces of each link a look takes at most.
const PIECES_MOST: u32 = 64;

/// What a World needs of the system.
#[derive(Drop)]
pub(crate) struct Network {
    alloc: Global,
    poll: Poll,
    events: Events,
    generator: StdRng,
    servers: Vec<Served>,
    links: Vec<Link>,
    inbox: Inbox,
    watch: Watch,
    /// The system's clock at the last look that took all that had come. It is shown once that is given.
    looked: u64,
    /// The system's clock at the last poll of which it is known that it told what had come.
    polled: u64,
    /// Until when the last wait was to last: sockets rest before that, and nothing is left in them from then on, since
    /// something may expire.
    until: u64,
    /// The token of the newest socket.
    tokens: usize,
    sends: u32,
    /// The last look took all that had come, and since then no poll was made and nothing was sent: a receive need not look.
    quiet: bool,
    /// The first failure of this machine that a send, a connect, a write or a wait was told.
    failure: Option<LocalFailure>,
}

/// The poll and the generator.
fn make_both<R: Net + RandomSource>(rt: &R) -> io::Result<(Poll, StdRng)> {
    Ok((Poll::new(rt)?, make_rng::<StdRng, _>(rt)?))
}

impl Network {
    /// A network without servers, if the poll and the generator can be made. Else why they can't.
    pub(crate) fn make<R: Net + RandomSource + AllocGlobal>(
        rt: &R,
    ) -> Result<Result<Network, LocalFailure>, NoMemory>
        ensures { IfOk result (λ made. IfOk made (λ network. network.inbox ≡ [] × network.watch.shown ≡ 0)) }
    {
        let alloc = rt.alloc();
        let (poll, generator) = match make_both(rt) {
            Ok(both) => both,
            Err(error) => {
                return Ok(Err(local_failure(&error).unwrap_or(LocalFailure::Other(0))));
            }
        };
        Ok(Ok(Network {
            alloc,
            poll,
            events: Events::with_capacity(alloc, EVENTS_MOST)?,
            generator,
            servers: Vec::new(alloc),
            links: Vec::new(alloc),
            inbox: Inbox::make(alloc)?,
            watch: Watch::make(),
            looked: 0,
            polled: 0,
            until: 0,
            tokens: 0,
            sends: 0,
            quiet: false,
            failure: None,
        }))
    }

    /// The first failure of this machine, if there was one.
    pub(crate) fn failure(&self) -> Option<LocalFailure> {
        first_failure(self.failure, self.inbox.failure())
    }

    pub(crate) fn word(&mut self) -> u16
        ensures inbox { self.new.inbox ≡ self.old.inbox }
        ensures moment { self.new.watch.shown ≡ self.old.watch.shown }
    {
        self.generator.random()
    }

    /// The clock that is shown. Where all that came is given it is put on to that of the system, `clock`, unless a look takes
    /// more by now than is sure to be received before something expires.
    #[tactic(auto, using(crate::proofs::BringsLemmas::prefix_same))]
    pub(crate) fn now<R: Net + Clock>(&mut self, rt: &R, clock: u64) -> u64
        ensures moment { result ≡ self.new.watch.shown }
        ensures later { self.old.watch.shown ≤ self.new.watch.shown }
        ensures came { IsPrefix self.old.inbox self.new.inbox }
        ensures holds { self.old.inbox ≢ []
            → (self.new.watch.shown ≡ self.old.watch.shown) × (self.new.inbox ≡ self.old.inbox) }
    {
        self.send_waiting(rt, clock);
        if self.inbox.is_empty() {
            let _ = self.look(clock);
            if self.quiet && self.inbox.is_short() {
                self.watch.end_look(clock);
            }
        }
        self.watch.shown
    }

    pub(crate) fn serve(&mut self, server: u32, address: &ServerAddr) -> Result<(), NoMemory>
        ensures inbox { self.new.inbox ≡ self.old.inbox }
        ensures moment { self.new.watch.shown ≡ self.old.watch.shown }
    {
        let peer = peer_of(address);
        for served in self.servers.iter_mut() {
            if served.server == server {
                served.move_to(peer);
                return Ok(());
            }
        }
        let served = Served::make(self.alloc, server, peer)?;
        self.servers.push(served)?;
        Ok(())
    }

    #[tactic(auto, using(crate::proofs::BringsLemmas::prefix_same, crate::proofs::BringsLemmas::prefix_longer))]
    pub(crate) fn send<R: Net + Clock>(&mut self, rt: &R, server: u32, bytes: &[u8]) -> Sent
        ensures came { IsPrefix self.old.inbox self.new.inbox }
        ensures moment { self.new.watch.shown ≡ self.old.watch.shown }
    {
        self.quiet = false;
        self.watch.note_send(self.polled);
        self.sends = self.sends.wrapping_add(1);
        if self.sends % SENDS_MOST == 0 {
            self.look_ahead();
        }
        let sent = match self.send_now(rt, server, bytes) {
            Ok(()) => Sent::Sent,
            Err(failure) => {
                self.failure = first_failure(self.failure, failure);
                Sent::Failed
            }
        };
        if self.is_sending() {
            self.send_waiting(rt, clock_millis(rt).unwrap_or(0));
        }
        sent
    }

    fn send_now<R: Net + Clock>(
        &mut self,
        rt: &R,
        server: u32,
        bytes: &[u8],
    ) -> Result<(), Option<LocalFailure>>
        ensures inbox { self.new.inbox ≡ self.old.inbox }
        ensures moment { self.new.watch.shown ≡ self.old.watch.shown }
    {
        for served in self.servers.iter_mut() {
            if served.server == server {
                return served.send(rt, self.poll.registry(), &mut self.tokens, bytes);
            }
        }
        Err(None)
    }

    pub(crate) fn connect<R: Net>(
        &mut self,
        rt: &R,
        server: u32,
        link: u64,
    ) -> Result<Sent, NoMemory>
        ensures inbox { self.new.inbox ≡ self.old.inbox }
        ensures moment { self.new.watch.shown ≡ self.old.watch.shown }
    {
        self.links.reserve(1)?;
        let Some(peer) = self.peer(server) else {
            return Ok(Sent::Failed);
        };
        self.links.retain(|held| held.number != link);
        self.tokens = self.tokens.wrapping_add(1);
        match Link::begin(rt, self.poll.registry(), peer, server, link, self.tokens) {
            Ok(begun) => {
                self.links.push(begun)?;
                Ok(Sent::Sent)
            }
            Err(error) => {
                self.failure = first_failure(self.failure, local_failure(&error));
                Ok(Sent::Failed)
            }
        }
    }

    fn peer(&self, server: u32) -> Option<SocketAddr> {
        let served = self.servers.iter().find(|served| served.server == server)?;
        Some(served.peer())
    }

    pub(crate) fn write(&mut self, link: u64, bytes: &[u8]) -> Wrote
        ensures part { IsPartOf (length bytes.now) result }
        ensures inbox { self.new.inbox ≡ self.old.inbox }
        ensures moment { self.new.watch.shown ≡ self.old.watch.shown }
    {
        for held in self.links.iter_mut() {
            if held.number == link {
                let moved = held.write(bytes);
                if let Moved::Failed(failure) = moved {
                    self.failure = first_failure(self.failure, failure);
                }
                return wrote_of(moved);
            }
        }
        Wrote::Failed
    }

    pub(crate) fn close(&mut self, link: u64)
        ensures inbox { self.new.inbox ≡ filter (λ got. not (is_of_link link got)) self.old.inbox }
        ensures moment { self.new.watch.shown ≡ self.old.watch.shown }
    {
        self.links.retain(|held| held.number != link);
        self.inbox.drop_link(link);
    }

    #[tactic(auto, using(crate::proofs::BringsLemmas::first_later))]
    pub(crate) fn receive<R: Clock>(&mut self, rt: &R) -> Result<Got, NoMemory>
        ensures ok { IfOk result (GivesFirst self.old.inbox self.new.inbox) }
        ensures taken { IfOk result IsReceived }
        ensures few { IfOk result (λ _. byte_count self.new.inbox ≤ 4259839) }
        ensures err { OnErr result (self.old.inbox ≢ [] → self.new.inbox ≡ self.old.inbox) }
        ensures later { self.old.watch.shown ≤ self.new.watch.shown }
        ensures holds { self.old.inbox ≢ [] → self.new.watch.shown ≡ self.old.watch.shown }
    {
        if self.inbox.is_empty() && !self.quiet {
            self.look(clock_millis(rt).unwrap_or(self.looked))?;
        }
        take_first(&mut self.inbox)
    }

    pub(crate) fn wait<R: Net + Clock>(&mut self, rt: &R, clock: u64, until: u64) -> Waited
        ensures held { self.old.inbox ≢ [] → result ≡ Woken }
        ensures inbox { self.new.inbox ≡ self.old.inbox }
        ensures moment { self.new.watch.shown ≡ self.old.watch.shown }
    {
        if !self.inbox.is_empty() {
            return Waited::Woken;
        }
        self.quiet = false;
        self.until = until;
        self.send_waiting(rt, clock);
        let left = self.most_left(self.watch.left(until, clock));
        let time = patience(self.is_pending(), self.is_resting(), left);
        match self.poll_for(time) {
            Ok(is_told) => self.end_wait(clock_millis(rt).unwrap_or(clock), clock, is_told),
            Err(error) => {
                self.failure = first_failure(self.failure, local_failure(&error));
                return Waited::Failed;
            }
        }
        Waited::Woken
    }

    /// A wait is over, which began at this moment: sockets rest no longer. Where no event was told a signal may have cut it off,
    /// as where the process was stopped meanwhile: then a look is to ask again.
    fn end_wait(&mut self, clock: u64, begun: u64, is_told: bool)
        ensures inbox { self.new.inbox ≡ self.old.inbox }
        ensures moment { self.new.watch.shown ≡ self.old.watch.shown }
    {
        self.polled = if is_told { clock } else { begun };
        for served in self.servers.iter_mut() {
            served.end_rest();
            served.close_older(clock);
        }
    }

    /// How long a wait lasts at most, of the milliseconds that are left.
    fn most_left(&self, left: u64) -> u64 {
        if self.is_sending() {
            left.min(SPREAD_MILLIS)
        } else {
            left
        }
    }

    /// Whether datagrams wait to be sent.
    fn is_sending(&self) -> bool {
        self.servers.iter().any(|served| served.is_sending())
    }

    /// Sends what has waited to be sent, as far as it may be by now.
    fn send_waiting<R: Net + Clock>(&mut self, rt: &R, clock: u64)
        ensures inbox { self.new.inbox ≡ self.old.inbox }
        ensures moment { self.new.watch.shown ≡ self.old.watch.shown }
    {
        for served in self.servers.iter_mut() {
            if served.is_sending() {
                let registry = self.poll.registry();
                let failure = served.send_waiting(rt, registry, &mut self.tokens, clock);
                self.failure = first_failure(self.failure, failure);
            }
        }
    }

    /// Waits for events, at most so many milliseconds, and marks the sockets that they tell. Answers whether one was told.
    fn poll_for(&mut self, millis: u64) -> io::Result<bool>
        ensures inbox { self.new.inbox ≡ self.old.inbox }
        ensures moment { self.new.watch.shown ≡ self.old.watch.shown }
    {
        let time = Duration::from_millis(millis);
        self.poll.poll(&mut self.events, Some(time))?;
        let mut is_told = false;
        for event in self.events.iter() {
            is_told = true;
            wake_one(&mut self.servers, &mut self.links, event.token().0);
        }
        Ok(is_told)
    }

    /// Whether there may be something to receive.
    fn is_pending(&self) -> bool {
        self.servers.iter().any(|served| served.is_pending())
            || self.links.iter().any(|link| link.is_pending())
    }

    /// Whether a socket is left alone until a wait is over.
    fn is_resting(&self) -> bool {
        self.servers.iter().any(|served| served.is_resting())
    }

    /// Looks at the servers' sockets that a poll tells now. What finds no memory now stays in its socket or in the inbox's
    /// buffer.
    fn look_ahead(&mut self)
        ensures came { IsPrefix self.old.inbox self.new.inbox }
        ensures moment { self.new.watch.shown ≡ self.old.watch.shown }
    {
        let _ = self.poll_for(0);
        let _ = look_at_servers(&mut self.servers, true, &mut self.inbox);
    }

    /// Moves what has come into the inbox, which is empty. So all that had come before the last look is given.
    fn look(&mut self, clock: u64) -> Result<(), NoMemory>
        ensures came { IsPrefix self.old.inbox self.new.inbox }
        ensures later { self.old.watch.shown ≤ self.new.watch.shown }
    {
        self.quiet = false;
        self.watch.begin_look(self.looked, clock);
        self.poll_again(clock);
        self.take_all(clock < self.until)?;
        self.end_look(clock);
        Ok(())
    }

    /// Polls, where the last poll is some time ago.
    fn poll_again(&mut self, clock: u64)
        ensures inbox { self.new.inbox ≡ self.old.inbox }
        ensures moment { self.new.watch.shown ≡ self.old.watch.shown }
    {
        if clock.saturating_sub(self.polled) >= POLL_MILLIS {
            let _ = self.poll_for(0);
            self.polled = clock;
        }
    }

    /// Moves what the sockets have into the inbox.
    #[tactic(auto, using(crate::proofs::BringsLemmas::prefix_longer))]
    fn take_all(&mut self, may_rest: bool) -> Result<(), NoMemory>
        ensures came { IsPrefix self.old.inbox self.new.inbox }
        ensures moment { self.new.watch.shown ≡ self.old.watch.shown }
    {
        look_at_servers(&mut self.servers, may_rest, &mut self.inbox)?;
        look_at_links(&mut self.links, &mut self.inbox)?;
        self.links.retain(|link| !link.is_over());
        Ok(())
    }

    /// Notes the moment of a look, if that took all that had come.
    fn end_look(&mut self, clock: u64)
        ensures inbox { self.new.inbox ≡ self.old.inbox }
        ensures moment { self.new.watch.shown ≡ self.old.watch.shown }
    {
        if !self.inbox.is_full() && !self.links.iter().any(|link| link.is_pending()) {
            self.quiet = true;
            self.looked = clock;
        }
    }
}

/// Marks the socket with this token: it may have something to receive.
fn wake_one(servers: &mut [Served], links: &mut [Link], token: usize) {
    for served in servers.iter_mut() {
        if served.wake(token) {
            return;
        }
    }
    for link in links.iter_mut() {
        link.wake(token);
    }
}

#[tactic(auto, using(crate::proofs::BringsLemmas::first_given, crate::proofs::BringsLemmas::taken_received, crate::proofs::BringsLemmas::none_given))]
fn take_first(inbox: &mut Inbox) -> Result<Got, NoMemory>
    ensures ok { IfOk result (GivesFirst inbox.old inbox.new) }
    ensures taken { IfOk result IsReceived }
    ensures few { byte_count inbox.new ≤ 4259839 }
    ensures err { OnErr result (inbox.new ≡ inbox.old) }
{
    match inbox.pop()? {
        Some(got) => Ok(got),
        None => Ok(Got::Nothing),
    }
}

#[tactic(auto, using(crate::proofs::BringsLemmas::prefix_brought, crate::proofs::BringsLemmas::prefix_same, crate::proofs::BringsLemmas::prefix_longer))]
fn look_at_servers(
    servers: &mut [Served],
    may_rest: bool,
    inbox: &mut Inbox,
) -> Result<(), NoMemory>
    ensures { IsPrefix inbox.old inbox.new }
{
    for served in servers.iter_mut() {
        served.look(may_rest, inbox)?;
    }
    Ok(())
}

#[tactic(auto, using(crate::proofs::BringsLemmas::prefix_same, crate::proofs::BringsLemmas::prefix_longer))]
fn look_at_links(links: &mut [Link], inbox: &mut Inbox) -> Result<(), NoMemory>
    ensures { IsPrefix inbox.old inbox.new }
{
    for _ in 0..PIECES_MOST {
        look_once_at_links(links, inbox)?;
        if inbox.is_full() || !links.iter().any(|link| link.is_pending()) {
            break;
        }
    }
    Ok(())
}

#[tactic(auto, using(crate::proofs::BringsLemmas::prefix_brought, crate::proofs::BringsLemmas::prefix_same, crate::proofs::BringsLemmas::prefix_longer))]
fn look_once_at_links(links: &mut [Link], inbox: &mut Inbox) -> Result<(), NoMemory>
    ensures { IsPrefix inbox.old inbox.new }
{
    for link in links.iter_mut() {
        link.look(inbox)?;
    }
    Ok(())
}
