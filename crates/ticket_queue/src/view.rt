//! What the proofs keep for each pass. No value of this type is ever made.
use std::collections::LinkedList;

/// What a pass has sent and received, in order, and its share of the right to know the whole.
pub struct View<M> {
    pub share: u64,
    pub sent: LinkedList<M>,
    pub got: LinkedList<M>,
}
