//! Channels that are served by workers to their ends.

mod noting;
mod rows;
mod runs;
