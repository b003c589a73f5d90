//! The lines of a run's text.

use chan_types::Entry;
use dns_message::Name;
use item_list::Bytes;
use net_addr::{Addr, ServerAddr};
use resolv_options::{Flags, Lookups};

/// The options of a channel that stand on one line: all but the lists. Times are in milliseconds.
#[derive(Clone, Copy, Debug)]
pub(crate) struct OptionLine {
    pub timeout: u32,
    pub tries: u8,
    pub ndots: u8,
    pub max_timeout: u32,
    pub flags: Flags,
    pub rotate: bool,
    pub lookups: Lookups,
    pub edns_size: u16,
}

/// A line by its kind.
#[derive(Drop)]
pub(crate) enum Line {
    /// What the text is.
    Head,
    /// The options but for the lists.
    Set(OptionLine),
    /// A server to ask.
    Server(ServerAddr),
    /// A domain of the search list.
    Domain(Name),
    /// One of the machine's own addresses.
    Source(Addr),
    /// The bytes of the hosts file.
    Hosts(Bytes),
    /// An entry of the journal.
    Event(Entry),
    /// The end of the text.
    End,
}
