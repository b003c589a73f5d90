//! What the end of an attempt means for its leg.

use chan_types::Status;

/// What the end of an attempt means for its leg.
#[derive(Clone, Copy, Debug, PartialEq, Eq)]
pub enum Judged {
    /// The question is asked again, of the same server over TCP.
    NextTcp,
    /// The question is asked again, of the same server without an OPT record.
    NextPlain,
    /// The attempt has failed, with this status.
    Failed(Status),
    /// The leg has ended, with this status.
    Final(Status),
}
