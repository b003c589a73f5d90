//! Where entries go.

ghost use Rattle.std.specs.Prelude.{◌≡◌, ◌≤◌, ◌<◌, ◌+◌, ◌^◌, [], length, IfOk, OnOk};
ghost use Rattle.channel_journal.specs.Told.{adds, arrived};

use chan_types::{Bytes, Entry, NoMemory};
use std::alloc::Global;

/// A journal that grows. Contracts see the entries that it was told, oldest first, and for how many more there is room:
/// to tell it one takes no memory. No call reads it, so that it need not keep what it was told.
pub trait ChannelJournal: Drop {
    ghost use Rattle.std.specs.Prelude.{ℕ, List};
    ghost use Rattle.chan_types.specs.declared.journal.Entry.{Entry};

    /// What it was told.
    ghost told: { Self → List Entry };

    /// For how many entries more there is room.
    ghost room: { Self → ℕ };

    /// These bytes are what it keeps of a message with those.
    ghost is_copy: { List ℕ → List ℕ → Type 0 };

    /// A journal without an entry.
    fn begin(alloc: Global) -> Result<Self, NoMemory>
        ensures { IfOk result (λ journal. told journal ≡ []) };

    /// Makes room for so many entries.
    fn reserve(&mut self, count: usize) -> Result<(), NoMemory>
        ensures told { told self.new ≡ told self.old }
        ensures room { OnOk result (count ≤ room self.new) }
        ensures kept { room self.old ≤ room self.new }
        ensures fits { length (told self.new) + room self.new ≤ 2 ^ 63 };

    /// Tells it one entry more. It takes no memory.
    fn add(&mut self, entry: Entry)
        requires room { 0 < room self.old }
        ensures told { told self.new ≡ adds entry (told self.old) }
        ensures room { room self.old ≤ room self.new + 1 };

    /// What it keeps of a message: its bytes, or none.
    fn copy(alloc: Global, bytes: &[u8]) -> Result<Bytes, NoMemory>
        ensures { IfOk result (λ copy. is_copy copy bytes.now) };

    /// Tells it that a message came, of which this is what it keeps. It takes no memory.
    fn arrive(&mut self, seat: u64, server: u32, link: u64, bytes: &[u8], copy: Bytes)
        requires room { 0 < room self.old }
        requires copy { is_copy copy bytes.now }
        ensures told { told self.new ≡ adds (arrived seat server link bytes.now) (told self.old) }
        ensures room { room self.old ≤ room self.new + 1 };

    /// How many entries it was told.
    fn count(&self) -> u64
        ensures { result ≡ length (told self.now) };
}
