//! What is known of a host at once.

use chan_types::{AddrList, Name, Status};

/// What is known of a host without a query.
#[derive(Drop)]
pub(crate) enum Finding {
    /// Nothing: its names are to be asked.
    Nothing,
    /// That a request for it ends with this status.
    Ended(Status),
    /// Its addresses, as they stand, and the name that they belong to.
    Host(AddrList, Name),
}
