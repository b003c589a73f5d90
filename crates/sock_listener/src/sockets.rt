//! The sockets of a server on 127.0.0.1: one over UDP, one that takes TCP connections, and those connections.

use crate::clock::millis_after;
use crate::link::{Link, Written};
use crate::room::{receive_buffer, widen};
use item_list::{Bytes, NoMemory};
use mio::net::{TcpListener, TcpStream, UdpSocket};
use mio::{Events, Interest, Poll, Token};
use net_world::Sent;
use std::alloc::Global;
use std::io;
use std::io::ErrorKind;
use std::net::{Ipv4Addr, Net, SocketAddr};
use std::time::{Clock, Duration};
use test_nameserver::Heard;

/// The tokens of the two sockets. Connections have those behind.
const UDP: usize = 0;

const TCP: usize = 1;

/// The greatest length of a datagram (RFC 768: the length is 16 bits).
const BUFFER_SIZE: usize = 65_535;

/// How many events a poll tells at most. What is left is told by the next.
const EVENTS_MOST: usize = 256;

/// How many connections are held at most. Further ones wait, until a client leaves or has been silent for so long.
const LINKS_MOST: usize = 256;

/// Behind so many messages the poll is asked, also where there are more: a client that never rests would else hide what
/// the others sent.
const MESSAGES_MOST: u32 = 16;

/// How often a call is made that signals cut off, and how often a connection is read for one message: a message has
/// 65,537 bytes with its length, and a read brings all that came, in most cases.
const TRIES: u32 = 1_024;

/// How often room is waited for, and how long at a time. Then the client is given up.
const WAITS_MOST: u32 = 100;

const WAIT_MILLIS: u64 = 100;

/// Who sent the last message.
#[derive(Clone, Copy)]
enum Sender {
    Nobody,
    /// Over UDP, from this address.
    Datagram(SocketAddr),
    /// Over the connection with this token.
    Link(usize),
}

/// The sockets.
#[derive(Drop)]
pub struct Sockets {
    alloc: Global,
    poll: Poll,
    events: Events,
    udp: UdpSocket,
    tcp: TcpListener,
    /// The connections, in the order of their turns.
    links: Vec<Link>,
    buffer: Vec<u8>,
    /// There may be a datagram. Only a look that finds none clears it, since the poll tells a change once.
    udp_ready: bool,
    /// There may be a connection to take.
    tcp_ready: bool,
    /// The token of the newest connection.
    tokens: usize,
    sender: Sender,
    /// The clock's last reading, in milliseconds.
    now: u64,
    /// How many messages were taken since the poll was asked.
    taken: u32,
}

impl Sockets {
    /// Sockets on this port, if the system gives them.
    pub fn open<R: Net>(rt: &R, alloc: Global, port: u16) -> Result<Option<Sockets>, NoMemory> {
        let events = Events::with_capacity(alloc, EVENTS_MOST)?;
        let buffer = Vec::from_elem(alloc, 0u8, BUFFER_SIZE)?;
        let Ok((poll, udp, tcp)) = open_both(rt, port) else {
            return Ok(None);
        };
        Ok(Some(Sockets {
            alloc,
            poll,
            events,
            udp,
            tcp,
            links: Vec::new(alloc),
            buffer,
            udp_ready: true,
            tcp_ready: true,
            tokens: TCP,
            sender: Sender::Nobody,
            now: 0,
            taken: 0,
        }))
    }

    /// The bytes of the receive buffer for datagrams, if the system tells them.
    pub fn receive_buffer(&self) -> Option<u32> {
        receive_buffer(&self.udp)
    }

    /// Waits for the next message.
    pub fn next<R: Clock>(&mut self, rt: &R) -> Result<Heard, NoMemory> {
        for _ in 0..u64::MAX {
            self.now = millis_after(rt, self.now);
            if self.wants_look() && self.look().is_err() {
                return Ok(Heard::Failed);
            }
            if let Some(heard) = self.take()? {
                self.taken = self.taken.saturating_add(1);
                return Ok(heard);
            }
            if self.wait(self.patience()).is_err() {
                return Ok(Heard::Failed);
            }
        }
        Ok(Heard::Failed)
    }

    /// Whether the poll is asked first: behind so many messages, and before a client is closed for its silence, since it may
    /// have sent something.
    fn wants_look(&self) -> bool {
        self.taken >= MESSAGES_MOST || (self.is_full() && self.may_accept())
    }

    /// How long may be waited: not at all where something may be there, and no longer than a client may be silent that has
    /// the place of one that waits; else for ever.
    fn patience(&self) -> Option<Duration> {
        if self.is_pending() {
            return Some(Duration::from_millis(0));
        }
        if !self.tcp_ready {
            return None;
        }
        let first = self.links.iter().map(|link| link.silent_from()).min()?;
        Some(Duration::from_millis(first.saturating_sub(self.now)))
    }

    /// Answers the sender of the last message.
    pub fn reply(&mut self, bytes: &[u8]) -> Result<Sent, NoMemory> {
        match self.sender {
            Sender::Nobody => Ok(Sent::Failed),
            Sender::Datagram(from) => {
                self.send(bytes, from);
                Ok(Sent::Sent)
            }
            Sender::Link(token) => self.write_message(bytes, token),
        }
    }

    /// What has come. Behind a datagram a connection has its turn, and behind that a datagram.
    fn take(&mut self) -> Result<Option<Heard>, NoMemory> {
        self.accept()?;
        if let Sender::Datagram(_) = self.sender {
            if let Some(heard) = self.take_from_links()? {
                return Ok(Some(heard));
            }
            return self.take_datagram();
        }
        if let Some(heard) = self.take_datagram()? {
            return Ok(Some(heard));
        }
        self.take_from_links()
    }

    /// Takes a datagram, if one has come. For want of memory it is lost.
    fn take_datagram(&mut self) -> Result<Option<Heard>, NoMemory> {
        for _ in 0..TRIES {
            if !self.udp_ready {
                return Ok(None);
            }
            match self.udp.recv_from(&mut self.buffer) {
                Ok((count, from)) => {
                    self.sender = Sender::Datagram(from);
                    let bytes = Bytes::of(self.alloc, &self.buffer[..count])?;
                    return Ok(Some(Heard::Message { tcp: false, bytes }));
                }
                Err(error) => match error.kind() {
                    ErrorKind::WouldBlock => self.udp_ready = false,
                    ErrorKind::Interrupted => {}
                    _ => return Ok(Some(Heard::Failed)),
                },
            }
        }
        Ok(None)
    }

    /// Takes the connections that wait.
    fn accept(&mut self) -> Result<(), NoMemory> {
        if self.is_full() {
            self.forget_over();
        }
        for _ in 0..LINKS_MOST {
            if !self.may_accept() {
                return Ok(());
            }
            self.links.reserve(1)?;
            match self.tcp.accept() {
                Ok((stream, _)) => self.welcome(stream)?,
                Err(error) => match error.kind() {
                    ErrorKind::Interrupted | ErrorKind::ConnectionAborted => {}
                    _ => self.tcp_ready = false,
                },
            }
        }
        Ok(())
    }

    /// Gives a connection a place: a free one, or that of the client that has been silent for longest.
    fn welcome(&mut self, stream: TcpStream) -> Result<(), NoMemory> {
        self.tokens = self.tokens.wrapping_add(1);
        let registry = self.poll.registry();
        let Ok(link) = Link::make(self.alloc, registry, self.tokens, stream, self.now) else {
            return Ok(());
        };
        if self.is_full() {
            self.close_most_silent();
        }
        self.links.push(link)?;
        Ok(())
    }

    /// Closes the connection that has been silent for longest.
    fn close_most_silent(&mut self) {
        let resting = self.links.iter().filter(|link| !link.is_pending());
        if let Some(link) = resting.min_by_key(|link| link.heard()) {
            let token = link.token();
            self.links.retain(|link| !link.has_token(token));
        }
    }

    /// Closes the connections that are over. None of them has a whole message left.
    fn forget_over(&mut self) {
        self.links.retain(|link| !link.is_over());
    }

    /// Whether all places are taken.
    fn is_full(&self) -> bool {
        self.links.len() >= LINKS_MOST
    }

    /// Whether a connection may wait, and has its place.
    fn may_accept(&self) -> bool {
        self.tcp_ready && (!self.is_full() || self.has_silent())
    }

    /// Whether a client has been silent for so long that it gives way.
    fn has_silent(&self) -> bool {
        self.links.iter().any(|link| link.is_silent(self.now))
    }

    /// Takes the next message of a connection, the one behind that whose turn was last first, or closes those that are over.
    fn take_from_links(&mut self) -> Result<Option<Heard>, NoMemory> {
        let found = first_of(self.alloc, &mut self.links, &mut self.buffer, self.now)?;
        let Some((place, bytes)) = found else {
            self.forget_over();
            return Ok(None);
        };
        let next = place.saturating_add(1).min(self.links.len());
        self.links.rotate_left(next);
        if let Some(link) = self.links.last() {
            self.sender = Sender::Link(link.token());
        }
        Ok(Some(Heard::Message { tcp: true, bytes }))
    }

    /// Whether something may be there that no event tells again.
    fn is_pending(&self) -> bool {
        self.udp_ready || self.may_accept() || self.links.iter().any(|link| link.is_pending())
    }

    /// Notes the events that are there, and waits for none.
    fn look(&mut self) -> io::Result<()> {
        self.wait(Some(Duration::from_millis(0)))
    }

    /// Waits for events, at most so long, and notes them.
    fn wait(&mut self, time: Option<Duration>) -> io::Result<()> {
        self.taken = 0;
        self.poll.poll(&mut self.events, time)?;
        for event in self.events.iter() {
            let token = event.token().0;
            self.udp_ready |= token == UDP;
            self.tcp_ready |= token == TCP;
            for link in self.links.iter_mut() {
                link.wake(token);
            }
        }
        Ok(())
    }

    /// Sends a datagram. One that the system doesn't take is lost, as where it is too long or there is no room: no client
    /// may end the server by what it asks.
    fn send(&self, bytes: &[u8], to: SocketAddr) {
        for _ in 0..TRIES {
            match self.udp.send_to(bytes, to) {
                Err(error) if error.kind() == ErrorKind::Interrupted => {}
                Ok(_) | Err(_) => return,
            }
        }
    }

    /// Writes a message and its length (RFC 1035, section 4.2.2). Where the client is gone it is lost.
    fn write_message(&mut self, bytes: &[u8], token: usize) -> Result<Sent, NoMemory> {
        let Ok(len) = u16::try_from(bytes.len()) else {
            return Ok(Sent::Failed);
        };
        let mut frame = Vec::from_slice(self.alloc, &len.to_be_bytes())?;
        frame.extend_from_slice(bytes)?;
        self.write_all(frame.as_slice(), token);
        Ok(Sent::Sent)
    }

    /// Writes all bytes, and gives up a client that hasn't taken them after so many waits, each of which any event ends.
    fn write_all(&mut self, bytes: &[u8], token: usize) {
        let mut rest = bytes;
        for _ in 0..WAITS_MOST {
            rest = match write_some(&mut self.links, token, rest) {
                Written::Done | Written::Gone => return,
                Written::Part(count) => rest.get(count..).unwrap_or(&[]),
            };
            if self.wait(Some(Duration::from_millis(WAIT_MILLIS))).is_err() {
                break;
            }
        }
        end_link(&mut self.links, token);
    }
}

/// The poll and both sockets.
fn open_both<R: Net>(rt: &R, port: u16) -> io::Result<(Poll, UdpSocket, TcpListener)> {
    let at = SocketAddr::from((Ipv4Addr::LOCALHOST, port));
    let poll = Poll::new(rt)?;
    let mut udp = UdpSocket::bind(rt, at)?;
    let mut tcp = TcpListener::bind(rt, at)?;
    widen(&udp);
    let registry = poll.registry();
    registry.register(&mut udp, Token(UDP), Interest::READABLE)?;
    registry.register(&mut tcp, Token(TCP), Interest::READABLE)?;
    Ok((poll, udp, tcp))
}

/// The first message of these connections, and where its connection stands.
fn first_of(
    alloc: Global,
    links: &mut [Link],
    buffer: &mut [u8],
    now: u64,
) -> Result<Option<(usize, Bytes)>, NoMemory> {
    for (place, link) in links.iter_mut().enumerate() {
        if let Some(bytes) = take_from(alloc, link, buffer, now)? {
            return Ok(Some((place, bytes)));
        }
    }
    Ok(None)
}

/// Takes a message of a connection, as soon as one has come whole.
fn take_from(
    alloc: Global,
    link: &mut Link,
    buffer: &mut [u8],
    now: u64,
) -> Result<Option<Bytes>, NoMemory> {
    for _ in 0..TRIES {
        if let Some(message) = link.take_message(alloc)? {
            return Ok(Some(message));
        }
        if !link.is_pending() {
            return Ok(None);
        }
        link.read(buffer, now)?;
    }
    Ok(None)
}

/// Writes some of the bytes to the connection with this token.
fn write_some(links: &mut [Link], token: usize, bytes: &[u8]) -> Written {
    for link in links.iter_mut() {
        if link.has_token(token) {
            return link.write(bytes);
        }
    }
    Written::Gone
}

/// Ends the connection with this token.
fn end_link(links: &mut [Link], token: usize) {
    for link in links.iter_mut() {
        if link.has_token(token) {
            link.end();
        }
    }
}
