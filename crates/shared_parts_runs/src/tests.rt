//! Threads under a lock, rounds of a pool, and a value that is published.

mod lock;
mod pool;
mod watched;
