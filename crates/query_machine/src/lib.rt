//! One question on its way: its query, the replies that answer it, what they mean, and the choice of a server.
#![tactic(auto)]

mod judging;
mod leg;
mod querying;
mod replies;
mod reply;
mod servers;
mod waiting;

pub use channel_model::Judged;
pub use judging::{Terms, verdict};
pub use leg::{Flying, Leg, Phase};
pub use querying::query_bytes;
pub use replies::judge;
pub use reply::{Reply, matching};
pub use servers::{FailureCount, Servers};
pub use waiting::{attempts, wait_of};
