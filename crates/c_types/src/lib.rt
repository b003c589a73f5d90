//! What crosses between a channel and a caller in C: structs in C's form, numbers for answers, faults and families, and bytes
//! that are laid over buffers.
#![tactic(auto)]

mod address;
mod laying;
mod making;
mod outgoing;
mod told;

pub use address::{address_in, family_of, lay_address, lay_at};
pub use laying::{lay, lay_behind};
pub use making::{MakeFault, lines_of, options_of};
pub use outgoing::Outgoing;
pub use told::{ToldAttempt, ToldCounts, ToldLeg, ToldRequest};
