//! DNS cookies of a client (RFC 7873): the query that carries one, and what a reply's cookie means.
#![tactic(auto)]

mod adding;
mod judging;
mod laws;
mod options;
mod places;
mod plain;
mod reply;

pub use adding::cookied;
pub use judging::{Judgement, Way, judge};
pub use laws::handed_on_has_a_reason;
pub use reply::{CookieReply, read_reply};
