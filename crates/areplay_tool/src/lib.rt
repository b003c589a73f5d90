//! `areplay` as a library: it reads a stored run of a channel, checks it, and puts what its requests came to.
#![tactic(auto)]

mod ending;
mod paging;
mod putting;
mod running;

pub use ending::End;
pub use running::run;
