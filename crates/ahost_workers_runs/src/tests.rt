//! Runs with one worker, with two and with four: what they put, and with which exit status. Which worker calls a callback, and
//! when, is another thing each time; the pages are the same.

mod bodies;
mod loads;
mod many;
mod noting;
mod pages;
mod playing;
mod reentry;
mod statuses;
mod still;
mod wanting;

/// How many workers each run is tried with.
const WORKERS: [u64; 3] = [1, 2, 4];
