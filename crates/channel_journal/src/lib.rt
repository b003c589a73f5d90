//! Where the entries of a channel go: a journal that keeps them, or one that only proofs see.
#![tactic(auto)]

mod journal;
mod kept;
mod tale;
mod untold;

pub use journal::ChannelJournal;
pub use kept::KeptJournal;
pub use untold::UntoldJournal;
