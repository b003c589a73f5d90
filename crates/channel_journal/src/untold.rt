//! The journal that only proofs see.

use crate::journal::ChannelJournal;
use crate::tale::Tale;
use chan_types::{Bytes, Entry, NoMemory};
use std::alloc::Global;
use std::marker::{Brand, Model};

/// The most entries that are told, so that what is counted along a journal fits 64 bits.
const MOST: u64 = 1 << 63;

/// A journal with no byte for an entry: a word says how many there were. What it was told can't be read by any code.
#[derive(Drop)]
pub struct UntoldJournal {
    count: u64,
    tale: Tale,
}

impl Model for UntoldJournal {
    ghost use Rattle.std.specs.Prelude.{List, ◌≡◌, ◌≤◌, ◌^◌, length};
    ghost use Rattle.std.specs.Coded.{codes};
    ghost use Rattle.chan_types.specs.PlanCode.{moves_code};
    ghost use Rattle.chan_types.specs.declared.journal.Entry.{Entry};

    ghost Value = { List Entry };

    ghost coded = { Prim.hlevel (codes, moves_code) };

    ghost view = { λ journal. journal.tale };

    ghost invariant = { λ journal. (journal.count ≡ length journal.tale) × (length journal.tale ≤ 2 ^ 63) };
}

impl ChannelJournal for UntoldJournal {
    ghost use Rattle.std.specs.Prelude.{◌-◌, ◌^◌, length, ⊤};

    ghost told = { λ journal. journal };

    ghost room = { λ journal. 2 ^ 63 - length journal };

    ghost is_copy = { λ copy bytes. ⊤ };

    fn begin(alloc: Global) -> Result<UntoldJournal, NoMemory> {
        Ok(UntoldJournal {
            count: 0,
            tale: Tale::begin(alloc)?,
        })
    }

    fn reserve(&mut self, count: usize) -> Result<(), NoMemory> {
        if count as u64 > MOST - self.count {
            return Err(NoMemory);
        }
        Ok(())
    }

    fn add(&mut self, entry: Entry) {
        self.tale.tell::<Brand>(&entry);
        self.count += 1;
    }

    fn copy(alloc: Global, _bytes: &[u8]) -> Result<Bytes, NoMemory> {
        Ok(Bytes::new(alloc))
    }

    fn arrive(&mut self, seat: u64, server: u32, link: u64, bytes: &[u8], _copy: Bytes) {
        self.tale.tell_arrival::<Brand>(seat, server, link, bytes);
        self.count += 1;
    }

    fn count(&self) -> u64 {
        self.count
    }
}
