//! Several channels.

ghost use Rattle.std.specs.Prelude.{◌≡◌, ◌<◌, length};

use channel_journal::{ChannelJournal, KeptJournal};
use completion_ticket::Done;
use shared_channel::{Channel, Finished};
use std::marker::Model;

/// Several channels, which callers share by passes of the fleet. It can't be dropped: `finish` alone consumes it. Contracts
/// see which channels they are, in order.
pub struct Fleet<B: Done + Drop, J: ChannelJournal = KeptJournal> {
    pub(crate) channels: Vec<Channel<B, J>>,
    /// Empty, with room for what is left of each channel: so that the end takes no memory.
    pub(crate) parts: Vec<Finished<J>>,
}

impl<B: Done + Drop, J: ChannelJournal> Model for Fleet<B, J> {
    ghost use Rattle.std.specs.Prelude.{◌<◌, ◌≡◌, ◌≤◌, List, [], length, vec_capacity};
    ghost use Rattle.atomic_table.specs.Seated.{TableId};

    ghost Value = { List TableId };

    ghost view = { λ fleet. fleet.channels.items };

    ghost invariant = { λ fleet. (0 < length fleet.channels.items) × (fleet.parts.items ≡ [])
        × (length fleet.channels.items ≤ vec_capacity fleet.parts) };
}

impl<B: Done + Drop, J: ChannelJournal> Fleet<B, J> {
    /// How many channels it has: one at least.
    pub fn channels(&self) -> u64
        ensures count { result ≡ length self.now }
        ensures some { 0 < result }
    {
        self.channels.len() as u64
    }
}
