//! What was received and not given yet. A socket's buffer is short, so it is emptied into a list here.

ghost use Rattle.std.specs.Prelude.{◌≡◌, ◌≤◌, ◌↔◌, ◌+◌, [], ◌∷◌, ◌++◌, length, filter, not, IsTrue, IfOk, OnOk, OnErr, IfSome, option_to_list, All};
ghost use Rattle.net_world.specs.World.{is_of_link};
ghost use Rattle.net_world.specs.declared.answers.Got.TheVariants.{Ended, Failed as LinkFailed};
ghost use Rattle.sock_engine.specs.Inbox.{held_items, held_bytes, IsHeld, IsTaken, IsInBuffer, held_other_than, has_more, byte_count, size_of as size_of_got, is_room_taken, Pops, LooksAtServer, LooksAtLink};

use crate::asked::Asked;
use crate::ends::{Moved, moved_of};
use crate::local_failure::{LocalFailure, first_failure};
use dns_message::{Bytes, NoMemory};
use mio::net::{TcpStream, UdpSocket};
use net_world::Got;
use std::alloc::Global;
use std::collections::VecDeque;
use std::io::Read;
use std::marker::Model;

/// The greatest length of a datagram. No UDP payload is longer (RFC 768: the length is 16 bits).
const BUFFER_SIZE: usize = 65_535;

/// The greatest length of a piece of a link.
const PIECE_MOST: usize = 16_384;

/// How many items may be kept. What else comes stays in the sockets' own buffers.
const ITEMS_MOST: usize = 16_384;

/// With so many bytes nothing more is taken either. The last item may bring more than was left.
const BYTES_MOST: usize = 4 << 20;

/// How many items a turn is sure to receive before it lets anything expire.
const FEW_ITEMS: usize = 63;

/// What the buffer holds: so many bytes of a server or a link.
#[derive(Clone, Copy)]
pub(crate) enum Held {
    HeldDatagram(u32, usize),
    HeldPiece(u64, usize),
}

/// What a look at a socket found.
#[derive(Clone, Copy, Debug, PartialEq, Eq)]
pub(crate) enum Found {
    /// A datagram or a piece, which was added.
    Came,
    /// A datagram that answers nothing, which was dropped.
    Stray,
    /// The inbox has no room for more.
    Full,
    /// There is nothing now.
    Blocked,
    /// A signal came first.
    Again,
    /// The link's end, which was added.
    Over,
    /// The system told an error.
    Failed,
}

/// Whether a socket may have more after a look.
pub(crate) fn may_have_more(look: Found) -> bool
    ensures { result ≡ has_more look }
{
    match look {
        Found::Came | Found::Stray | Found::Full | Found::Again | Found::Over | Found::Failed =>
            true,
        Found::Blocked => false,
    }
}

/// The items that were received and not given yet, in order. One whose copy found no memory waits in the buffer.
#[derive(Drop)]
pub(crate) struct Inbox {
    alloc: Global,
    items: VecDeque<Got>,
    buffer: Vec<u8>,
    held: Option<Held>,
    /// No fewer bytes than all that have.
    bytes: usize,
    /// The first failure of this machine that a look was told.
    failure: Option<LocalFailure>,
}

impl Model for Inbox {
    ghost use Rattle.std.specs.Prelude.{List, ◌++◌, ◌+◌, ◌≤◌, ◌≡◌, length, All};
    ghost use Rattle.net_world.specs.declared.answers.Got.{Got};
    ghost use Rattle.sock_engine.specs.Inbox.{held_items, held_bytes, IsHeld, IsTaken, byte_count};

    ghost Value = { List Got };

    ghost view = { λ b. b.items.items ++ held_items b.buffer.items b.held };

    ghost invariant = { λ b. All IsTaken b.items.items × IsHeld b.buffer.items b.held × (length b.buffer.items ≡ 65535) × (byte_count b.items.items + held_bytes b.held ≤ b.bytes) × (b.bytes ≤ 4259839) };
}

impl Inbox {
    /// An empty one.
    pub(crate) fn make(alloc: Global) -> Result<Inbox, NoMemory>
        ensures { IfOk result (λ inbox. inbox ≡ []) }
    {
        Ok(Inbox {
            alloc,
            items: VecDeque::new(alloc),
            buffer: Vec::from_elem(alloc, 0u8, BUFFER_SIZE)?,
            held: None,
            bytes: 0,
            failure: None,
        })
    }

    /// The first failure of this machine that a look was told, if one was.
    pub(crate) fn failure(&self) -> Option<LocalFailure> {
        self.failure
    }

    /// Whether there is nothing.
    pub(crate) fn is_empty(&self) -> bool
        ensures { IsTrue result ↔ (self.now ≡ []) }
    {
        self.items.is_empty() && self.held.is_none()
    }

    /// Whether a turn is sure to receive all of it before it lets anything expire.
    pub(crate) fn is_short(&self) -> bool {
        self.items.len() < FEW_ITEMS
    }

    /// Whether it takes no more.
    pub(crate) fn is_full(&self) -> bool {
        is_without_room(self.items.len(), self.bytes)
    }

    /// Takes the first item. For want of memory it stays.
    #[tactic(auto, using(crate::proofs::InboxLemmas::behind_first, crate::proofs::InboxLemmas::bytes_of_all))]
    pub(crate) fn pop(&mut self) -> Result<Option<Got>, NoMemory>
        ensures ok { IfOk result (Pops self.old self.new) }
        ensures taken { IfOk result (λ got. IfSome got IsTaken) }
        ensures few { byte_count self.new ≤ 4259839 }
        ensures err { OnErr result (self.new ≡ self.old) }
    {
        if let Some(got) = self.items.pop_front() {
            self.bytes = self.bytes.saturating_sub(size_of(&got));
            return Ok(Some(got));
        }
        let got = copy_held(self.alloc, self.buffer.as_slice(), self.held)?;
        self.held = None;
        self.bytes = 0;
        Ok(got)
    }

    /// Drops what is of the link.
    #[tactic(auto, using(crate::proofs::InboxLemmas::others_left))]
    pub(crate) fn drop_link(&mut self, link: u64)
        ensures { self.new ≡ filter (λ got. not (is_of_link link got)) self.old }
    {
        keep_others(&mut self.items, link);
        self.held = other_than(self.held, link);
    }

    /// Adds that a server's datagrams were refused. For want of memory all is as before.
    pub(crate) fn push_refusal(&mut self, server: u32) -> Result<(), NoMemory>
        ensures ok { OnOk result (self.new ≡ self.old ++ LinkFailed server 0 ∷ []) }
        ensures err { OnErr result (self.new ≡ self.old) }
    {
        settle(
            self.alloc,
            self.buffer.as_slice(),
            self.held,
            &mut self.items,
        )?;
        self.held = None;
        add(&mut self.items, Got::Failed(server, 0))
    }

    /// Adds that a link ended. For want of memory all is as before.
    pub(crate) fn push_end(&mut self, link: u64) -> Result<(), NoMemory>
        ensures ok { OnOk result (self.new ≡ self.old ++ Ended link ∷ []) }
        ensures err { OnErr result (self.new ≡ self.old) }
    {
        settle(
            self.alloc,
            self.buffer.as_slice(),
            self.held,
            &mut self.items,
        )?;
        self.held = None;
        add(&mut self.items, Got::Ended(link))
    }

    /// Looks at a server's socket for a datagram, and drops one that answers none of these queries. For want of memory all is
    /// as before.
    pub(crate) fn look_at_server(
        &mut self,
        server: u32,
        socket: &UdpSocket,
        asked: &mut Asked,
    ) -> Result<Found, NoMemory>
        ensures ok { IfOk result (LooksAtServer server self.old self.new) }
        ensures err { OnErr result (self.new ≡ self.old) }
    {
        if is_without_room(self.items.len(), self.bytes) {
            return Ok(Found::Full);
        }
        settle(
            self.alloc,
            self.buffer.as_slice(),
            self.held,
            &mut self.items,
        )?;
        self.held = None;
        match receive_into(socket, &mut self.buffer) {
            Moved::Done(count) => {
                if !asked.takes(&self.buffer[..count]) {
                    return Ok(Found::Stray);
                }
                self.held = Some(Held::HeldDatagram(server, count));
                self.bytes = self.bytes.saturating_add(count);
                Ok(Found::Came)
            }
            Moved::Blocked => Ok(Found::Blocked),
            Moved::Again => Ok(Found::Again),
            Moved::Failed(failure) => {
                self.failure = first_failure(self.failure, failure);
                Ok(Found::Failed)
            }
        }
    }

    /// Looks at a link's stream for bytes or its end, and adds how many came to `brought`. For want of memory all is as before.
    pub(crate) fn look_at_link(
        &mut self,
        server: u32,
        link: u64,
        stream: &mut TcpStream,
        brought: &mut u64,
    ) -> Result<Found, NoMemory>
        ensures ok { IfOk result (LooksAtLink server link self.old self.new) }
        ensures err { OnErr result (self.new ≡ self.old) }
    {
        if is_without_room(self.items.len(), self.bytes) {
            return Ok(Found::Full);
        }
        settle(
            self.alloc,
            self.buffer.as_slice(),
            self.held,
            &mut self.items,
        )?;
        self.held = None;
        self.items.reserve(1)?;
        match read_into(stream, &mut self.buffer) {
            Moved::Done(0) => {
                add(&mut self.items, Got::Ended(link))?;
                Ok(Found::Over)
            }
            Moved::Done(count) => {
                self.held = Some(Held::HeldPiece(link, count));
                self.bytes = self.bytes.saturating_add(count);
                *brought = brought.saturating_add(count as u64);
                Ok(Found::Came)
            }
            Moved::Blocked => Ok(Found::Blocked),
            Moved::Again => Ok(Found::Again),
            Moved::Failed(failure) => {
                add(&mut self.items, Got::Failed(server, link))?;
                self.failure = first_failure(self.failure, failure);
                Ok(Found::Failed)
            }
        }
    }
}

/// Receives a datagram.
fn receive_into(socket: &UdpSocket, buffer: &mut [u8]) -> Moved
    ensures part { IsInBuffer (length buffer.new) result }
    ensures length { length buffer.new ≡ length buffer.old }
{
    moved_of(socket.recv(buffer))
}

/// Reads a piece.
#[tactic(auto, using(crate::proofs::InboxLemmas::piece_room))]
fn read_into(stream: &mut TcpStream, buffer: &mut [u8]) -> Moved
    requires { length buffer.old ≡ 65535 }
    ensures part { IsInBuffer 16384 result }
    ensures length { length buffer.new ≡ length buffer.old }
{
    moved_of(stream.read(&mut buffer[..PIECE_MOST]))
}

/// Adds an item. For want of memory the items are as before.
#[tactic(auto, using(crate::proofs::InboxLemmas::bytes_behind))]
fn add(items: &mut VecDeque<Got>, got: Got) -> Result<(), NoMemory>
    ensures ok { OnOk result (items.new.items ≡ items.old.items ++ got ∷ []) }
    ensures taken { OnOk result (All IsTaken items.old.items → IsTaken got → All IsTaken items.new.items) }
    ensures bytes { OnOk result (byte_count items.new.items ≡ byte_count items.old.items + size_of_got got) }
    ensures err { OnErr result (items.new.items ≡ items.old.items) }
{
    items.push_back(got)?;
    Ok(())
}

/// Whether nothing more is taken behind so many items with so many bytes.
fn is_without_room(items: usize, bytes: usize) -> bool
    ensures { result ≡ is_room_taken items bytes }
{
    items >= ITEMS_MOST || bytes >= BYTES_MOST
}

/// How many bytes an item has.
fn size_of(got: &Got) -> usize
    ensures { result ≡ size_of_got got.now }
{
    match got {
        Got::Datagram(_, bytes) | Got::Piece(_, bytes) => bytes.as_slice().len(),
        Got::Ended(_) | Got::Nothing | Got::Failed(_, _) => 0,
    }
}

/// Drops the items of the link.
fn keep_others(items: &mut VecDeque<Got>, link: u64)
    ensures { items.new.items ≡ filter (λ got. not (is_of_link link got)) items.old.items }
{
    items.retain(|got| !got.is_of_link(link));
}

/// What the buffer holds, if it isn't of the link.
fn other_than(held: Option<Held>, link: u64) -> Option<Held>
    ensures { result ≡ held_other_than link held }
{
    match held {
        Some(Held::HeldPiece(number, _)) if number == link => None,
        other => other,
    }
}

/// What the buffer holds, if anything.
fn copy_held(alloc: Global, buffer: &[u8], held: Option<Held>) -> Result<Option<Got>, NoMemory>
    requires { IsHeld buffer.now held }
    ensures got { IfOk result (λ got. option_to_list got ≡ held_items buffer.now held) }
    ensures taken { IfOk result (λ got. IfSome got IsTaken) }
{
    Ok(match held {
        Some(Held::HeldDatagram(server, count)) => {
            Some(Got::Datagram(server, Bytes::of(alloc, &buffer[..count])?))
        }
        Some(Held::HeldPiece(link, count)) => {
            Some(Got::Piece(link, Bytes::of(alloc, &buffer[..count])?))
        }
        None => None,
    })
}

/// Adds what the buffer holds. For want of memory the items are as before.
#[tactic(auto, using(crate::proofs::InboxLemmas::bytes_of_all))]
fn settle(
    alloc: Global,
    buffer: &[u8],
    held: Option<Held>,
    items: &mut VecDeque<Got>,
) -> Result<(), NoMemory>
    requires { IsHeld buffer.now held }
    ensures ok { OnOk result (items.new.items ≡ items.old.items ++ held_items buffer.now held) }
    ensures taken { OnOk result (All IsTaken items.old.items → All IsTaken items.new.items) }
    ensures bytes { OnOk result (byte_count items.new.items ≡ byte_count items.old.items + held_bytes held) }
    ensures err { OnErr result (items.new.items ≡ items.old.items) }
{
    if let Some(got) = copy_held(alloc, buffer, held)? {
        items.push_back(got)?;
    }
    Ok(())
}
