//! What the tools put with `--journal` tells their runs: laws above them and the readers of their texts.
#![tactic(auto)]

mod adig_laws;
mod ahost_laws;
mod fitting;

pub use adig_laws::adig_books_tell_their_runs;
pub use ahost_laws::ahost_books_tell_their_runs;
