//! `adig` as a library: it asks one question over a given network, and puts the answer as a page of text.
#![tactic(auto)]

mod asking;
mod cookies;
mod ended;
mod lent;
mod putting;
mod resolving;
mod running;

pub use ended::Ended;
pub use running::run;
