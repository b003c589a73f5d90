//! One UDP socket of a server.

ghost use Rattle.sock_engine.specs.Inbox.{BringsOnly, IsOfServer};

use crate::asked::Asked;
use crate::ends::{Moved, moved_of};
use crate::inbox::{Found, Inbox, may_have_more};
use crate::peer::any_of;
use dns_message::NoMemory;
use libc::net as c;
use mio::net::UdpSocket;
use mio::{Interest, Registry, Token};
use std::alloc::Global;
use std::io;
use std::net::{Net, SocketAddr};
use std::os::fd::AsRawFd;

/// The receive buffer that is asked for, in bytes, so that many replies have room. The system may give less.
const RECEIVE_BUFFER: i32 = 8 << 20;

/// How often a call is made that signals or told refusals cut off.
const TRIES: u32 = 8;

/// How many datagrams a look takes at most. No more have room in the buffer that is asked for, of which the system makes
/// twice as many bytes and counts some 770 for the shortest datagram: so what came before a look is taken by it, however many
/// more come meanwhile.
const LOOK_MOST: u32 = 32_768;

/// A UDP socket that is connected to a server: only datagrams from that address and port come.
#[derive(Drop)]
pub(crate) struct Port {
    socket: UdpSocket,
    token: usize,
    /// It may have something to receive. Only a receive that finds nothing clears it, since the poll tells a change once.
    ready: bool,
    /// It has brought a reply for each query, and is left alone until the poll tells of it or a wait is over.
    rests: bool,
    /// The system told a refusal that was not added to the inbox yet.
    refused: bool,
    asked: Asked,
}

impl Port {
    /// Opens one, whose port the system draws. What came before it was connected is thrown away.
    pub(crate) fn open<R: Net>(
        alloc: Global,
        rt: &R,
        registry: &Registry,
        peer: SocketAddr,
        token: usize,
    ) -> io::Result<Port> {
        let asked = Asked::make(alloc)?;
        let mut socket = UdpSocket::bind(rt, any_of(peer))?;
        socket.connect(peer)?;
        forget_strangers(&socket);
        widen(&socket);
        registry.register(&mut socket, Token(token), Interest::READABLE)?;
        Ok(Port {
            socket,
            token,
            ready: false,
            rests: false,
            refused: false,
            asked,
        })
    }

    /// Sends a datagram. Where the system hands out an earlier refusal in its place, it is sent again, and the refusal is
    /// told later, behind what has come. One for which the system has no room now isn't sent.
    pub(crate) fn send(&mut self, bytes: &[u8]) -> Moved {
        let (mut refused, mut cause) = (false, None);
        for _ in 0..TRIES {
            match moved_of(self.socket.send(bytes)) {
                Moved::Done(count) => {
                    self.asked.note(bytes);
                    self.refused |= refused;
                    self.rests &= !refused;
                    return Moved::Done(count);
                }
                Moved::Blocked => return Moved::Blocked,
                Moved::Again => {}
                Moved::Failed(failure) => (refused, cause) = (true, failure),
            }
        }
        self.asked.spend();
        Moved::Failed(cause)
    }

    /// How many queries have had no reply.
    pub(crate) fn unanswered(&self) -> u64 {
        self.asked.unanswered()
    }

    /// Whether another socket is to serve the next query.
    pub(crate) fn is_spent(&self) -> bool {
        self.asked.is_spent()
    }

    /// Whether there may be something to receive.
    pub(crate) fn may_bring(&self) -> bool {
        self.ready || self.refused
    }

    /// Whether that is looked for before a wait.
    pub(crate) fn is_pending(&self) -> bool {
        self.may_bring() && !self.rests
    }

    /// Whether it is left alone until a wait is over. A receive that finds nothing costs as much as one that brings a reply,
    /// and where each query has its reply there is mostly nothing more.
    pub(crate) fn is_resting(&self) -> bool {
        self.rests
    }

    /// What came beside the replies is looked for now.
    pub(crate) fn end_rest(&mut self) {
        self.rests = false;
    }

    /// Whether each query has had a reply.
    pub(crate) fn is_answered(&self) -> bool {
        self.asked.is_answered()
    }

    /// Notes that something may have come, where the poll told this token. Answers whether it did.
    pub(crate) fn wake(&mut self, token: usize) -> bool {
        if self.token != token {
            return false;
        }
        self.ready = true;
        self.rests = false;
        true
    }

    /// Moves what has come into the inbox, and behind it a refusal. It may rest behind the last reply, if it is let.
    #[tactic(auto, using(crate::proofs::BringsLemmas::none_brought, crate::proofs::BringsLemmas::one_brought, crate::proofs::BringsLemmas::both_brought))]
    pub(crate) fn look(
        &mut self,
        server: u32,
        may_rest: bool,
        inbox: &mut Inbox,
    ) -> Result<(), NoMemory>
        ensures { BringsOnly (IsOfServer server) inbox.old inbox.new }
    {
        if !self.may_bring() {
            return Ok(());
        }
        self.rests &= may_rest;
        self.look_for_datagrams(server, may_rest, inbox)?;
        if self.refused {
            inbox.push_refusal(server)?;
            self.refused = false;
        }
        Ok(())
    }

    #[tactic(auto, using(crate::proofs::BringsLemmas::none_brought, crate::proofs::BringsLemmas::both_brought))]
    fn look_for_datagrams(
        &mut self,
        server: u32,
        may_rest: bool,
        inbox: &mut Inbox,
    ) -> Result<(), NoMemory>
        ensures { BringsOnly (IsOfServer server) inbox.old inbox.new }
    {
        for _ in 0..LOOK_MOST {
            if !self.ready || self.rests || inbox.is_full() {
                break;
            }
            self.look_once(server, may_rest, inbox)?;
        }
        Ok(())
    }

    #[tactic(auto, using(crate::proofs::BringsLemmas::none_brought, crate::proofs::BringsLemmas::one_brought))]
    fn look_once(&mut self, server: u32, may_rest: bool, inbox: &mut Inbox) -> Result<(), NoMemory>
        ensures { BringsOnly (IsOfServer server) inbox.old inbox.new }
    {
        let look = inbox.look_at_server(server, &self.socket, &mut self.asked)?;
        self.refused |= look == Found::Failed;
        self.ready = may_have_more(look);
        self.rests = may_rest && self.ready && self.asked.is_answered();
        Ok(())
    }
}

/// Asks for a large receive buffer. Without it more replies are lost, and asked for again.
fn widen(socket: &UdpSocket) {
    let mut value = [0u8; 16];
    value[..4].copy_from_slice(&RECEIVE_BUFFER.to_ne_bytes());
    let _ = unsafe { c::setsockopt(socket.as_raw_fd(), c::SOL_SOCKET, c::SO_RCVBUF, &value, 4) };
}

/// Throws away what came from anywhere between the binding and the connecting of the socket.
fn forget_strangers(socket: &UdpSocket) {
    let mut byte = [0u8; 1];
    for _ in 0..LOOK_MOST {
        if socket.recv(&mut byte).is_err() {
            return;
        }
    }
}
