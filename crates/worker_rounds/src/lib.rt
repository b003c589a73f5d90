//! Rounds of a channel: its owner does what there is to do at it, while workers call the callbacks.
#![tactic(auto)]

mod crew;
mod feeding;
mod keeper;
mod pump;
mod rounds;
mod serving;
mod whole;

pub use crew::{dismiss, hire};
pub use feeding::{Feeder, Source, run_beside};
pub use keeper::Keeper;
pub use pump::{Idle, Pump};
pub use rounds::run_rounds;
pub use serving::{Served, Team, serve};
pub use whole::{Plan, Whole, run_whole};
