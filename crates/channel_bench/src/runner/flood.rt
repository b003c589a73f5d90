//! A network that brings the same datagram again and again, or the bytes of one link piece by piece.

ghost use base.Stored.{gnil};
ghost use Rattle.std.specs.Prelude.{IfOk, IsFalse, None};
ghost use Rattle.net_world.specs.Cause.{is_link_failed};
ghost use Rattle.net_world.specs.World.{IsWhole};

use item_list::{Bytes, NoMemory};
use net_addr::ServerAddr;
use net_world::{Got, Sent, Waited, World, Wrote};
use std::alloc::Global;

/// How many bytes of a link come at once.
const PIECE: usize = 4_096;

/// The link whose bytes come.
pub const LINK: u64 = 1;

/// A network of one server. It tells no log.
#[derive(Drop)]
pub struct Flood {
    alloc: Global,
    /// The datagram, or the bytes of the link.
    bytes: Vec<u8>,
    /// How many datagrams are still to come.
    datagrams: u64,
    /// How many bytes of the link have come: as many as there are, until it is begun.
    come: usize,
    /// The random word that is drawn next.
    word: u16,
}

impl Flood {
    /// A network that brings this datagram so many times.
    pub fn of_datagrams(alloc: Global, datagram: Vec<u8>, datagrams: u64) -> Flood {
        let come = datagram.len();
        Flood {
            alloc,
            bytes: datagram,
            datagrams,
            come,
            word: 0,
        }
    }

    /// A network that brings these bytes over the link, once it is begun.
    pub fn of_link(alloc: Global, bytes: Vec<u8>) -> Flood {
        Flood::of_datagrams(alloc, bytes, 0)
    }

    /// The datagram, or the bytes of the link.
    pub fn bytes(&self) -> &[u8] {
        self.bytes.as_slice()
    }

    /// The next piece of the link, or nothing.
    fn piece(&mut self) -> Result<Got, NoMemory>
        ensures { IfOk result (λ got. IsFalse (is_link_failed got) × IsWhole got) }
    {
        let rest = self.bytes.get(self.come..).unwrap_or(&[]);
        let piece = rest.get(..PIECE).unwrap_or(rest);
        if piece.is_empty() {
            return Ok(Got::Nothing);
        }
        let got = Got::Piece(LINK, Bytes::of(self.alloc, piece)?);
        self.come = self.come.saturating_add(piece.len());
        Ok(got)
    }
}

impl World for Flood {
    ghost log = { λ flood. None };

    ghost items = { λ flood. None };

    ghost faults = { λ flood. 0 };

    ghost wait_faults = { λ flood. 0 };

    ghost reading = { λ flood. 0 };

    ghost origin = { λ flood. gnil };

    fn serve(&mut self, _server: u32, _address: &ServerAddr) -> Result<(), NoMemory> {
        Ok(())
    }

    fn now(&mut self) -> Result<u64, NoMemory> {
        Ok(0)
    }

    fn word(&mut self) -> Result<u16, NoMemory> {
        let word = self.word;
        self.word = word.wrapping_add(1);
        Ok(word)
    }

    fn send(&mut self, _server: u32, _bytes: &[u8]) -> Result<Sent, NoMemory> {
        Ok(Sent::Sent)
    }

    fn connect(&mut self, _server: u32, _link: u64) -> Result<Sent, NoMemory> {
        self.come = 0;
        Ok(Sent::Sent)
    }

    fn write(&mut self, _link: u64, bytes: &[u8]) -> Result<Wrote, NoMemory> {
        Ok(Wrote::Count(bytes.len().min(PIECE)))
    }

    fn receive(&mut self) -> Result<Got, NoMemory> {
        if self.datagrams == 0 {
            return self.piece();
        }
        let got = Got::Datagram(0, Bytes::of(self.alloc, self.bytes.as_slice())?);
        self.datagrams = self.datagrams.saturating_sub(1);
        Ok(got)
    }

    fn close(&mut self, _link: u64) -> Result<(), NoMemory> {
        Ok(())
    }

    fn wait(&mut self, _until: u64) -> Result<Waited, NoMemory> {
        Ok(Waited::Woken)
    }
}
