//! A stored journal is checked, and what its requests came to is told: its entries are made once more, by a channel's
//! table.
#![tactic(auto)]

mod checking;
mod fates;
mod keys;
mod listing;
mod recorded;
mod replay;
mod steps;

pub use checking::{Checked, check};
pub use fates::fate_of;
