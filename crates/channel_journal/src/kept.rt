//! The journal that keeps its entries.

ghost use Rattle.std.specs.Prelude.{◌≡◌};

use crate::journal::ChannelJournal;
use chan_types::{Bytes, Entry, Journal, NoMemory, What};
use std::alloc::Global;

/// A journal with its entries in memory: it grows with each, for as long as the channel runs.
#[derive(Drop)]
pub struct KeptJournal {
    pub entries: Vec<Entry>,
}

impl ChannelJournal for KeptJournal {
    ghost use Rattle.std.specs.Prelude.{◌≡◌, ◌-◌, vec_capacity, vec_len};

    ghost told = { λ journal. journal.entries.items };

    ghost room = { λ journal. vec_capacity journal.entries - vec_len journal.entries };

    ghost is_copy = { λ copy bytes. copy ≡ bytes };

    fn begin(alloc: Global) -> Result<KeptJournal, NoMemory> {
        Ok(KeptJournal {
            entries: Vec::new(alloc),
        })
    }

    fn reserve(&mut self, count: usize) -> Result<(), NoMemory> {
        Ok(self.entries.reserve(count)?)
    }

    fn add(&mut self, entry: Entry) {
        self.entries.push_reserved(entry);
    }

    fn copy(alloc: Global, bytes: &[u8]) -> Result<Bytes, NoMemory> {
        Bytes::of(alloc, bytes)
    }

    fn arrive(&mut self, seat: u64, server: u32, link: u64, _bytes: &[u8], copy: Bytes) {
        self.entries.push_reserved(Entry {
            seat,
            by: 0,
            what: What::Arrive {
                server,
                link,
                bytes: copy,
            },
        });
    }

    fn count(&self) -> u64 {
        self.entries.len() as u64
    }
}

impl KeptJournal {
    /// The journal as a list of entries, which may be handed out. It takes no memory.
    pub fn into_journal(self) -> Journal
        ensures { result ≡ self.entries.items }
    {
        Journal::from_vec(self.entries)
    }
}
