//! What the proofs keep for each seat. No value of these types is ever made.
use std::collections::LinkedList;

/// Where a seat is in its turn.
pub enum Phase {
    /// The lock has no state yet, and this is its only seat.
    Empty,
    /// The seat has the slot for the state, and makes the lock's seats, of which there are so many by now.
    Makes(u64),
    /// The seat has no ticket.
    Idle,
    /// The seat has this ticket.
    Waits(u64),
    /// It is this ticket's turn, and the seat has the state.
    Holds(u64),
}

/// What a seat that was joined into another leaves: its number, the entries that it made, and the history that it had seen.
pub struct Left<E> {
    pub number: u64,
    pub own: LinkedList<E>,
    pub seen: LinkedList<E>,
}

/// A seat's view of the lock.
pub struct View<E, T> {
    pub phase: Phase,
    pub number: u64,
    pub seats: u64,
    pub setting: Option<T>,
    pub own: LinkedList<E>,
    pub seen: LinkedList<E>,
    pub joined: LinkedList<Left<E>>,
}
