//! What a tool's `main` writes to standard error beside the page: which word wasn't taken, the screen of its options, and
//! what to do about an exit status.
#![tactic(auto)]

mod adig_rows;
mod advising;
mod ahost_rows;
mod helping;
mod refusing;
mod row;
mod screen;
mod taking;

pub use advising::advice;
pub use helping::help;
pub use refusing::refused_at;
pub use row::OptionRow;
pub use screen::{option_rows, put_screen};
