//! Bytes that come in at the end and go out at the front.

ghost use Rattle.std.specs.Prelude.{◌≡◌, ◌≤◌, ◌++◌, [], drop, length, OnOk, OnErr};

use item_list::NoMemory;
use std::alloc::Global;
use std::marker::Model;

/// Bytes that come in at the end and go out at the front. Contracts see those that are in it. What goes out is only
/// marked, and what is left moves to the front where that is no more than what went out: so no more bytes move than went
/// out.
#[derive(Drop)]
pub struct Backlog {
    bytes: Vec<u8>,
    /// How many bytes of the front are out.
    out: usize,
}

impl Model for Backlog {
    ghost use Rattle.std.specs.Prelude.{List, ℕ, drop, vec_len, ◌≤◌};

    ghost Value = { List ℕ };

    ghost view = { λ b. drop b.out b.bytes.items };

    ghost invariant = { λ b. b.out ≤ vec_len b.bytes };
}

impl Backlog {
    /// No bytes. It takes no memory.
    pub fn new(alloc: Global) -> Backlog
        ensures { result ≡ [] }
    {
        Backlog {
            bytes: Vec::new(alloc),
            out: 0,
        }
    }

    /// The bytes, in order.
    pub fn as_slice(&self) -> &[u8]
        ensures { result.now ≡ self.now }
    {
        &self.bytes[self.out..]
    }

    /// Adds bytes at the end.
    pub fn append(&mut self, more: &[u8]) -> Result<(), NoMemory>
        ensures ok { OnOk result (self.new ≡ self.old ++ more.now) }
        ensures err { OnErr result (self.new ≡ self.old) }
    {
        self.make_room();
        self.bytes.extend_from_slice(more)?;
        Ok(())
    }

    /// Lets the first bytes go out.
    pub fn skip(&mut self, count: usize)
        requires { count ≤ length self.old }
        ensures { self.new ≡ drop count self.old }
    {
        self.out += count;
    }

    /// Lets all bytes go out.
    pub fn clear(&mut self)
        ensures { self.new ≡ [] }
    {
        self.bytes.clear();
        self.out = 0;
    }

    /// Moves the bytes to the front, where at least as many went out.
    fn make_room(&mut self)
        ensures { self.new ≡ self.old }
    {
        if self.out >= self.bytes.len() - self.out {
            self.bytes.drain(..self.out);
            self.out = 0;
        }
    }
}
