//! `ahost` with workers as a library: the callbacks of a run are called by several threads, while one makes its turns.
#![tactic(auto)]

mod asking;
mod ending;
mod loading;
mod requests;
mod resolving;
mod running;
mod work;

pub use run_end::Ended;
pub use running::{run_boxed_with_workers, run_with_workers};
