//! Examples from outside, and tables worked out by hand.
//!
//! An assertion in a loop over rows has no message, which would take a third of the proof. A row that fails is found by
//! leaving out the rows behind it.

mod cache;
mod callbacks;
mod deadlines;
mod ids;
mod legs;
mod machines;
mod words;
