//! One TCP connection of a client.

use item_list::{Bytes, NoMemory};
use mio::net::TcpStream;
use mio::{Interest, Registry, Token};
use std::alloc::Global;
use std::io;
use std::io::{ErrorKind, Read, Write};
use test_nameserver::first_message;

/// How long a client may be silent where all places are taken and another waits for one, in milliseconds.
const SILENCE_MILLIS: u64 = 10_000;

/// A stream of a client, under the token by which the poll tells of it.
#[derive(Drop)]
pub struct Link {
    token: usize,
    stream: TcpStream,
    /// What was read and is no whole message yet.
    unread: Vec<u8>,
    /// It may have something to read. Only a read that finds nothing clears it, since the poll tells a change once.
    ready: bool,
    /// It ended or failed.
    over: bool,
    /// When it last brought something, or else was made, in milliseconds of the clock.
    heard: u64,
}

/// How far a write came.
#[derive(Clone, Copy, Debug, PartialEq, Eq)]
pub enum Written {
    /// All bytes are written.
    Done,
    /// So many more bytes are written, and the rest has to wait for room.
    Part(usize),
    /// The client is gone.
    Gone,
}

impl Link {
    /// A link over a stream that was accepted at this moment.
    pub fn make(
        alloc: Global,
        registry: &Registry,
        token: usize,
        mut stream: TcpStream,
        now: u64,
    ) -> io::Result<Link> {
        stream.set_nodelay(true)?;
        registry.register(
            &mut stream,
            Token(token),
            Interest::READABLE | Interest::WRITABLE,
        )?;
        Ok(Link {
            token,
            stream,
            unread: Vec::new(alloc),
            ready: true,
            over: false,
            heard: now,
        })
    }

    /// Whether this is its token.
    pub fn has_token(&self, token: usize) -> bool {
        self.token == token
    }

    /// Its token.
    pub fn token(&self) -> usize {
        self.token
    }

    /// When it last brought something.
    pub fn heard(&self) -> u64 {
        self.heard
    }

    /// From when on it counts as silent, unless it brings something before.
    pub fn silent_from(&self) -> u64 {
        self.heard.saturating_add(SILENCE_MILLIS)
    }

    /// Whether it is silent at this moment: nothing came of it for so long, and nothing is there to read.
    pub fn is_silent(&self, now: u64) -> bool {
        self.silent_from() <= now && !self.is_pending()
    }

    /// Whether it has nothing more to bring.
    pub fn is_over(&self) -> bool {
        self.over
    }

    /// Notes that something may have come, where the poll told this token.
    pub fn wake(&mut self, token: usize) {
        self.ready |= self.token == token;
    }

    /// Notes that the client is gone.
    pub fn end(&mut self) {
        self.over = true;
    }

    /// Takes the first message that stands whole in what was read (RFC 1035, section 4.2.2).
    pub fn take_message(&mut self, alloc: Global) -> Result<Option<Bytes>, NoMemory> {
        let Some((message, rest)) = first_message(self.unread.as_slice()) else {
            return Ok(None);
        };
        let message = Bytes::of(alloc, message)?;
        let rest = Vec::from_slice(alloc, rest)?;
        self.unread = rest;
        Ok(Some(message))
    }

    /// Whether there may be something to read.
    pub fn is_pending(&self) -> bool {
        self.ready && !self.over
    }

    /// Reads some of what has come by this moment. For want of memory nothing is read.
    pub fn read(&mut self, buffer: &mut [u8], now: u64) -> Result<(), NoMemory> {
        self.unread.reserve(buffer.len())?;
        match self.stream.read(buffer) {
            Ok(0) => self.over = true,
            Ok(count) => {
                self.unread.extend_from_slice(&buffer[..count])?;
                self.heard = now;
            }
            Err(error) => match error.kind() {
                ErrorKind::WouldBlock => self.ready = false,
                ErrorKind::Interrupted => {}
                _ => self.over = true,
            },
        }
        Ok(())
    }

    /// Writes some of the bytes.
    pub fn write(&mut self, bytes: &[u8]) -> Written {
        match self.stream.write(bytes) {
            Ok(count) if count >= bytes.len() => Written::Done,
            Ok(count) => Written::Part(count),
            Err(error) => match error.kind() {
                ErrorKind::WouldBlock | ErrorKind::Interrupted => Written::Part(0),
                _ => Written::Gone,
            },
        }
    }
}
