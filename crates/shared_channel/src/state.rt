//! What the lock keeps: the channel's table.

use chan_types::Entry;
use channel_journal::ChannelJournal;
use channel_table::Table;
use completion_ticket::{Callback, Done};
use hosts_file::Hosts;
use resolv_options::Options;
use seat_lock::{Kept, SeatLock};

/// The lock of a channel.
pub(crate) type ChannelLock<B, J> = SeatLock<SharedTable<B, J>>;

/// A channel's table in a box, since a state moves out of the lock and back at each turn.
#[derive(Drop)]
pub(crate) struct SharedTable<B: Done + Drop, J: ChannelJournal> {
    pub table: Box<Table<Callback<B>, J>>,
}

impl<B: Done + Drop, J: ChannelJournal> Kept for SharedTable<B, J> {
    type Entry = Entry;

    type Setting = (Options, Hosts);

    ghost stands = { λ state. state.table.value.journal };

    ghost maker = { λ entry. entry.seat };

    ghost setting = { λ state. (state.table.value.setting.options, state.table.value.setting.hosts) };
}
