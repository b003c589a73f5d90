//! The word in which C keeps a channel: it has one, or none, and says so.
#![tactic(auto)]

mod pointer;
mod word;

pub use pointer::ChannelPointer;
pub use word::ChannelWord;
