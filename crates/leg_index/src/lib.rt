//! What finds a leg without a scan of the requests: by the identifier of its attempt, the first that waits, and the
//! links over which legs are in flight.
#![tactic(auto)]

mod flights;
mod fresh;
mod link_ids;
mod links;
mod waiting;

pub use flights::Flights;
pub use links::{LinkUse, Links};
pub use waiting::Waiting;
