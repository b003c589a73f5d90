//! A channel that threads share: each has a place in it, and one journal orders what all of them did.
#![tactic(auto)]

mod account;
mod channel;
mod delivering;
mod finishing;
mod held;
mod looking;
mod operations;
mod pass;
mod place;
mod plain;
mod running;
mod spending;
mod state;
mod turns;

pub use channel::Channel;
pub use delivering::deliver_some;
pub use finishing::{Finished, finish};
pub use held::HeldPlace;
pub use pass::Pass;
pub use place::Place;
pub use plain::{last_pass, plain_channel};
pub use spending::{deliver_one, spend};
