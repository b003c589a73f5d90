//! A bounded queue from one sender to several receivers, whose proof knows that what was sent is, up to order, what was
//! received and what the queue holds.
#![tactic(auto)]

mod making;
mod pass;
mod queue;
mod rule;
mod view;

pub use making::make;
pub use pass::QueuePass;
pub use queue::Queue;
