//! A run that can be put as text.

use chan_types::Journal;
use item_list::Bytes;
use resolv_options::Options;

/// A run of a channel: what it was set to, and what happened. Another program reads it as text and looks at it again.
#[derive(Drop)]
pub struct Book {
    /// The options that the channel was made with.
    pub options: Options,
    /// The bytes of the hosts file.
    pub hosts: Bytes,
    /// What happened, oldest first.
    pub journal: Journal,
}
