//! Examples from outside, as tables, and each call that may take memory once with ample memory.
//!
//! An assertion in a loop over rows has no message, which would take a third of the proof. A row that fails is found by
//! leaving out the rows behind it.

mod addresses;
mod destinations;
mod files;
mod journals;
mod lists;
mod world;
