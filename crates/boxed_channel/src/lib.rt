//! A channel with one owner, on the heap behind one word, for a caller in C: its calls, with numbers for their answers,
//! and what C may copy: of the attempt that was begun last, of the request that was taken last, and of a kept journal.
#![tactic(auto)]

mod boxed;
mod journaled;
mod state;

pub use boxed::{BoxedChannel, make};
pub use state::ChannelState;
