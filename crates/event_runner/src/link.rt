//! A link that a runner holds.

ghost use Rattle.std.specs.Prelude.{◌≡◌, ◌≤◌, ◌++◌, [], drop, length, OnOk};
ghost use Rattle.channel_model.specs.Frames.{framed, messages_in, left_in};
ghost use Rattle.event_runner.specs.Delivering.{Delivers};

use crate::backlog::Backlog;
use crate::inbound::Inbound;
use channel_model::Desk;
use item_list::NoMemory;
use std::alloc::Global;
use std::marker::Model;

/// A link over TCP that a runner holds. Contracts see its number and its server, the bytes that came and are no whole
/// frame yet, and the bytes that are still to be written.
#[derive(Drop)]
pub struct HeldLink {
    number: u64,
    server: u32,
    inbound: Inbound,
    outbound: Backlog,
}

impl Model for HeldLink {
    ghost use Rattle.channel_model.specs.KeptLinks.{Row};

    ghost Value = { Row };

    ghost view = { λ l. record { number = l.number; server = l.server; unread = l.inbound; unwritten = l.outbound } };
}

impl HeldLink {
    /// A link that was just begun. It takes no memory.
    pub fn new(alloc: Global, number: u64, server: u32) -> HeldLink
        ensures { result ≡ record { number = number; server = server; unread = []; unwritten = [] } }
    {
        HeldLink {
            number,
            server,
            inbound: Inbound::new(alloc),
            outbound: Backlog::new(alloc),
        }
    }

    /// The link's number.
    pub fn number(&self) -> u64
        ensures { result ≡ self.now.number }
    {
        self.number
    }

    /// The server that it was connected to.
    pub fn server(&self) -> u32
        ensures { result ≡ self.now.server }
    {
        self.server
    }

    /// The bytes that are still to be written.
    pub fn unwritten(&self) -> &[u8]
        ensures { result.now ≡ self.now.unwritten }
    {
        self.outbound.as_slice()
    }

    /// So many of them were written.
    pub fn wrote(&mut self, count: usize)
        requires { count ≤ length self.old.unwritten }
        ensures { self.new ≡ record self.old { unwritten = drop count self.old.unwritten } }
    {
        self.outbound.skip(count);
    }

    /// Puts a message, in its frame, behind the bytes that are still to be written.
    pub fn queue(&mut self, message: &[u8]) -> Result<(), NoMemory>
        ensures { OnOk result
            (self.new ≡ record self.old { unwritten = self.old.unwritten ++ framed message.now }) }
    {
        // The length of a frame has 16 bits. No query is longer.
        if message.len() > 0xffff {
            return Err(NoMemory);
        }
        let length = message.len() as u16;
        self.outbound.append(&length.to_be_bytes())?;
        self.outbound.append(message)
    }

    /// Takes in a piece of the link, and hands the channel each message that becomes whole with it.
    pub fn feed<D: Desk>(&mut self, desk: &mut D, piece: &[u8]) -> Result<(), NoMemory>
        ensures left { OnOk result (self.new
            ≡ record self.old { unread = left_in self.old.unread piece.now }) }
        ensures delivers { Delivers self.old.server self.old.number
            (messages_in self.old.unread piece.now) result (D.known desk.old) (D.known desk.new) }
    {
        self.inbound.feed(desk, self.server, self.number, piece)
    }
}
