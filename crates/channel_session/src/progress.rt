//! What a session comes to.

use chan_types::{Ticket, Token};

/// What a session comes to.
#[derive(Drop)]
pub enum Progress<T: Token> {
    /// A request completed: its ticket, with its answer and what it was accepted with.
    Completed(Ticket<T>),
    /// Nothing is pending or ready.
    Over,
    /// A wait of the network failed.
    WaitFault,
    /// All turns were made, and something is pending or ready.
    Stalled,
    /// Another user of the channel changed it meanwhile: it is time to call again.
    Disturbed,
}

/// What one step of a session's loop came to.
#[derive(Clone, Copy, Debug, PartialEq, Eq)]
pub enum Stepped {
    /// A turn was made.
    Turned,
    /// Nothing is pending or ready.
    Over,
    /// The wait before the turn failed.
    WaitFault,
    /// Another user of the channel changed it.
    Disturbed,
}
