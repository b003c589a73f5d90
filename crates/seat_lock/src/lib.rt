//! A lock under which threads change a state in turns, and whose proof knows the one history of what they did.
#![tactic(auto)]

mod hold;
mod kept;
mod lock;
mod making;
mod opened;
mod rule;
mod seat;
mod steps;
mod turning;
mod view;

pub use hold::Hold;
pub use kept::{Kept, Op};
pub use lock::SeatLock;
pub use making::make;
pub use seat::Seat;
pub use view::Left;
