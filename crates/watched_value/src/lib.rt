//! A value that one writer publishes again and again, and that readers look at without waiting and without memory: the
//! latest, and never one before another that the same reader has seen.
#![tactic(auto)]

mod opening;
mod page;
mod publisher;
mod rule;
mod watcher;

pub use opening::Opening;
pub use publisher::{PublishFault, Publisher};
pub use watcher::Watcher;
