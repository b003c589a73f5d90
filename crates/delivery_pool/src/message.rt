//! What goes through a pool.

/// A ticket, or the word that one worker may stop.
#[derive(Drop)]
pub enum Message<T: Drop> {
    Stop,
    Ticket(T),
}
