//! A server: its address and its sockets.

ghost use Rattle.std.specs.Prelude.{◌≡◌};
ghost use Rattle.sock_engine.specs.Inbox.{BringsOnly, IsOfServer};

use crate::clock::clock_millis;
use crate::ends::Moved;
use crate::inbox::Inbox;
use crate::local_failure::{LocalFailure, first_failure, local_failure};
use crate::outbox::Outbox;
use crate::port::Port;
use dns_message::NoMemory;
use mio::Registry;
use std::alloc::Global;
use std::io;
use std::net::{Net, SocketAddr};
use std::time::Clock;

/// How many datagrams that have waited are sent in one go at most.
const ROUND_MOST: u32 = 16_384;

/// How many older sockets of a server are read at most. While all are, the last one serves on.
const OLDER_MOST: usize = 128;

/// So many of the newest are read also where all their queries have had a reply: it may have been a wrong one, before the
/// true one.
const OLDER_FEW: u64 = 8;

/// How long an older socket is waited for at most, in milliseconds: the longest first wait that options can ask for.
/// Later waits may be longer, since they double. A reply that comes to a socket that is closed isn't received: its
/// attempt expires, as if the reply were lost.
const OLDER_MILLIS: u64 = 60_000;

/// A socket that asks no more, how many were opened before it took its place here, and until when its replies are waited for.
#[derive(Drop)]
struct Older {
    port: Port,
    number: u64,
    until: u64,
}

/// A server by its number, with the socket that asks it and older ones.
#[derive(Drop)]
pub(crate) struct Served {
    pub(crate) server: u32,
    alloc: Global,
    peer: SocketAddr,
    port: Option<Port>,
    older: Vec<Older>,
    /// How many sockets were opened.
    opened: u64,
    outbox: Outbox,
}

impl Served {
    /// A server without a socket. It gets one at its first send.
    pub(crate) fn make(alloc: Global, server: u32, peer: SocketAddr) -> Result<Served, NoMemory> {
        Ok(Served {
            server,
            alloc,
            peer,
            port: None,
            older: Vec::with_capacity(alloc, OLDER_MOST)?,
            opened: 0,
            outbox: Outbox::make(alloc),
        })
    }

    pub(crate) fn peer(&self) -> SocketAddr {
        self.peer
    }

    /// Closes the sockets, where this is another address.
    pub(crate) fn move_to(&mut self, peer: SocketAddr) {
        if self.peer != peer {
            self.peer = peer;
            self.port = None;
            self.older.clear();
            self.outbox.note_in_flight(0);
        }
    }

    /// Sends a datagram, or has it wait for the next round, as in a burst. What can't be sent tells this machine's own failure,
    /// if it is one.
    pub(crate) fn send<R: Net + Clock>(
        &mut self,
        rt: &R,
        registry: &Registry,
        tokens: &mut usize,
        bytes: &[u8],
    ) -> Result<(), Option<LocalFailure>> {
        if self.outbox.holds_back(bytes) {
            return Ok(());
        }
        match self.send_now(rt, registry, tokens, bytes) {
            Moved::Done(_) => Ok(()),
            // Where it has no place in the outbox it is lost, as a datagram may be.
            Moved::Blocked | Moved::Again => {
                let _ = self.outbox.add(bytes);
                Ok(())
            }
            Moved::Failed(failure) => Err(failure),
        }
    }

    /// Sends a datagram, by a fresh socket where the last one is spent.
    fn send_now<R: Net + Clock>(
        &mut self,
        rt: &R,
        registry: &Registry,
        tokens: &mut usize,
        bytes: &[u8],
    ) -> Moved {
        let renewed = self.renew(rt, registry, tokens);
        let moved = match (&mut self.port, renewed) {
            (Some(port), _) => port.send(bytes),
            (None, Err(error)) => Moved::Failed(local_failure(&error)),
            (None, Ok(())) => Moved::Failed(None),
        };
        if let Moved::Done(_) = moved {
            self.outbox.note_sent();
        }
        moved
    }

    /// Whether datagrams wait to be sent.
    pub(crate) fn is_sending(&self) -> bool {
        !self.outbox.is_empty()
    }

    /// Sends what has waited, as far as it may be sent at this moment of the system's clock. One that can't be sent is lost, and
    /// this machine's failure is told, if it is one.
    pub(crate) fn send_waiting<R: Net + Clock>(
        &mut self,
        rt: &R,
        registry: &Registry,
        tokens: &mut usize,
        clock: u64,
    ) -> Option<LocalFailure> {
        let mut first = None;
        self.outbox.begin_round(clock);
        for _ in 0..ROUND_MOST {
            let Some(bytes) = self.outbox.take() else {
                break;
            };
            match self.send_now(rt, registry, tokens, bytes.as_slice()) {
                Moved::Done(_) => {}
                Moved::Blocked | Moved::Again => {
                    self.outbox.put_back(bytes);
                    break;
                }
                Moved::Failed(failure) => first = first_failure(first, failure),
            }
        }
        first
    }

    /// Opens a fresh socket, where there is none or the last one is spent, and an older one more has its place.
    fn renew<R: Net + Clock>(
        &mut self,
        rt: &R,
        registry: &Registry,
        tokens: &mut usize,
    ) -> io::Result<()> {
        if self.port.as_ref().is_some_and(|port| !port.is_spent()) {
            return Ok(());
        }
        let now = clock_millis(rt).unwrap_or(0);
        self.close_older(now);
        if self.older.len() >= OLDER_MOST {
            return Ok(());
        }
        *tokens = tokens.wrapping_add(1);
        let fresh = Port::open(self.alloc, rt, registry, self.peer, *tokens)?;
        self.opened = self.opened.saturating_add(1);
        if let Some(port) = self.port.replace(fresh) {
            self.older.push(Older {
                port,
                number: self.opened,
                until: now.saturating_add(OLDER_MILLIS),
            })?;
        }
        Ok(())
    }

    /// Closes the older sockets that have nothing more to bring: all is answered, but for the newest, or their time is over. One
    /// that rests has all its replies.
    pub(crate) fn close_older(&mut self, now: u64) {
        let behind = self.opened.saturating_sub(OLDER_FEW);
        self.older.retain(|older| {
            let is_waited_for = older.number > behind || !older.port.is_answered();
            older.port.is_pending() || is_waited_for && now < older.until
        });
    }

    /// Whether there may be something to receive.
    pub(crate) fn is_pending(&self) -> bool {
        self.port.as_ref().is_some_and(|port| port.is_pending())
            || self.older.iter().any(|older| older.port.is_pending())
    }

    /// Whether a socket is left alone until a wait is over.
    pub(crate) fn is_resting(&self) -> bool {
        self.port.as_ref().is_some_and(|port| port.is_resting())
            || self.older.iter().any(|older| older.port.is_resting())
    }

    /// A wait is over: sockets rest no longer.
    pub(crate) fn end_rest(&mut self) {
        if let Some(port) = &mut self.port {
            port.end_rest();
        }
        for older in self.older.iter_mut() {
            older.port.end_rest();
        }
    }

    /// Notes that something may have come, where the poll told the token of one of the sockets. Answers whether it did.
    pub(crate) fn wake(&mut self, token: usize) -> bool {
        if self.port.as_mut().is_some_and(|port| port.wake(token)) {
            return true;
        }
        for older in self.older.iter_mut() {
            if older.port.wake(token) {
                return true;
            }
        }
        false
    }

    /// Moves what has come into the inbox, the older sockets first. Sockets may rest behind the last reply, if they are let.
    #[tactic(auto, using(crate::proofs::BringsLemmas::both_brought))]
    pub(crate) fn look(&mut self, may_rest: bool, inbox: &mut Inbox) -> Result<(), NoMemory>
        ensures brings { BringsOnly (IsOfServer self.old.server) inbox.old inbox.new }
        ensures server { self.new.server ≡ self.old.server }
    {
        look_at_older(&mut self.older, self.server, may_rest, inbox)?;
        look_at_newest(&mut self.port, self.server, may_rest, inbox)?;
        let unanswered = self.unanswered();
        self.outbox.note_in_flight(unanswered);
        Ok(())
    }

    /// How many queries have had no reply.
    fn unanswered(&self) -> u64 {
        let mut count = self.port.as_ref().map_or(0, |port| port.unanswered());
        for older in self.older.iter() {
            count = count.saturating_add(older.port.unanswered());
        }
        count
    }
}

#[tactic(auto, using(crate::proofs::BringsLemmas::none_brought))]
fn look_at_newest(
    port: &mut Option<Port>,
    server: u32,
    may_rest: bool,
    inbox: &mut Inbox,
) -> Result<(), NoMemory>
    ensures { BringsOnly (IsOfServer server) inbox.old inbox.new }
{
    match port {
        Some(port) => port.look(server, may_rest, inbox),
        None => Ok(()),
    }
}

#[tactic(auto, using(crate::proofs::BringsLemmas::none_brought, crate::proofs::BringsLemmas::both_brought))]
fn look_at_older(
    older: &mut [Older],
    server: u32,
    may_rest: bool,
    inbox: &mut Inbox,
) -> Result<(), NoMemory>
    ensures { BringsOnly (IsOfServer server) inbox.old inbox.new }
{
    for older in older.iter_mut() {
        older.port.look(server, may_rest, inbox)?;
    }
    Ok(())
}
