//! One TCP connection to a server.

ghost use Rattle.std.specs.Prelude.{◌≡◌, length, true, false, OnOk};
ghost use Rattle.net_world.specs.World.{IsPartOf};
ghost use Rattle.sock_engine.specs.Ends.{write_end};
ghost use Rattle.sock_engine.specs.Inbox.{BringsOnly, IsOfLink, IsPieceOf};

use crate::ends::{Moved, moved_of};
use crate::frame_count::FrameCount;
use crate::inbox::{Found, Inbox, may_have_more};
use dns_message::NoMemory;
use mio::net::TcpStream;
use mio::{Interest, Registry, Token};
use std::io;
use std::io::Write;
use std::net::{Net, SocketAddr};

/// How often a write is made that signals cut off.
const TRIES: u32 = 8;

/// The longest reply over TCP, and its length before it (RFC 1035, section 4.2.2).
const REPLY_MOST: u64 = 65_537;

/// A TCP stream under its link's number.
#[derive(Drop)]
pub(crate) struct Link {
    pub(crate) number: u64,
    server: u32,
    stream: TcpStream,
    token: usize,
    /// It may have something to receive. Only a read that finds nothing clears it, since the poll tells a change once.
    ready: bool,
    /// Its end or its failure is in the inbox.
    over: bool,
    /// The queries that it took.
    queries: FrameCount,
    /// How many bytes it has brought.
    brought: u64,
}

impl Link {
    /// Begins to connect. Small writes aren't gathered, since each is a whole query.
    pub(crate) fn begin<R: Net>(
        rt: &R,
        registry: &Registry,
        peer: SocketAddr,
        server: u32,
        number: u64,
        token: usize,
    ) -> io::Result<Link> {
        let mut stream = TcpStream::connect(rt, peer)?;
        stream.set_nodelay(true)?;
        let interest = Interest::READABLE | Interest::WRITABLE;
        registry.register(&mut stream, Token(token), interest)?;
        Ok(Link {
            number,
            server,
            stream,
            token,
            ready: false,
            over: false,
            queries: FrameCount::make(),
            brought: 0,
        })
    }

    /// Writes. A stream that isn't connected yet, or has no room, takes 0 bytes.
    pub(crate) fn write(&mut self, bytes: &[u8]) -> Moved
        ensures { IsPartOf (length bytes.now) (write_end result) }
    {
        for _ in 0..TRIES {
            match moved_of(self.stream.write(bytes)) {
                Moved::Again => {}
                Moved::Done(count) => {
                    self.queries.pass(&bytes[..count]);
                    return Moved::Done(count);
                }
                moved => return moved,
            }
        }
        Moved::Again
    }

    /// Whether it has brought more than the longest replies to all its queries.
    fn brings_too_much(&self) -> bool {
        self.brought > self.queries.begun().saturating_mul(REPLY_MOST)
    }

    /// Whether there may be something to receive.
    pub(crate) fn is_pending(&self) -> bool {
        self.ready && !self.over
    }

    /// Whether its end or its failure was received.
    pub(crate) fn is_over(&self) -> bool {
        self.over
    }

    /// Notes that something may have come, where the poll told this token.
    pub(crate) fn wake(&mut self, token: usize) {
        if self.token == token {
            self.ready = true;
        }
    }

    /// Moves some bytes, or its end, into the inbox. One that has brought more than it can have been asked for ends. A link that
    /// is over may be looked at again, where memory was wanting behind its end: nothing more comes of it.
    #[tactic(auto, using(crate::proofs::BringsLemmas::none_brought, crate::proofs::BringsLemmas::one_brought))]
    pub(crate) fn look(&mut self, inbox: &mut Inbox) -> Result<(), NoMemory>
        ensures brings { BringsOnly (IsOfLink self.old.server self.old.number) inbox.old inbox.new }
        ensures over { self.old.over ≡ true → inbox.new ≡ inbox.old }
        ensures lasts { OnOk result
            (self.new.over ≡ false → BringsOnly (IsPieceOf self.old.number) inbox.old inbox.new) }
    {
        if self.over || !self.ready {
            return Ok(());
        }
        if self.brings_too_much() {
            inbox.push_end(self.number)?;
            self.over = true;
            return Ok(());
        }
        let look = inbox.look_at_link(
            self.server,
            self.number,
            &mut self.stream,
            &mut self.brought,
        )?;
        self.over = look == Found::Over || look == Found::Failed;
        self.ready = may_have_more(look);
        Ok(())
    }
}
