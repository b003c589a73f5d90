//! Pools of workers, in threads and without.

mod calls;
mod meeting;
mod notes;
mod rounds;
mod whole;
