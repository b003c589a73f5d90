//! What tests of a channel say of a run: what comes on its network, as data, and what its journal and its network's log
//! tell, as lines of text.
#![tactic(auto)]

mod called;
mod coming;
mod telling;
mod words;

pub use called::is_called_once;
pub use coming::{Coming, items_of};
pub use telling::{Shown, are_told, calls_told, journal_told, sent_in};
pub use words::words_of;
