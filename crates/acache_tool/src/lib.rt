//! `acache` as a library: it asks for the addresses of names, one after the other, over a given network, and keeps the
//! answers in a cache for as long as they live.
#![tactic(auto)]

mod asked;
mod asking;
mod closing;
mod ending;
mod putting;
mod running;
mod shown;

pub use run_end::Ended;
pub use running::run;
