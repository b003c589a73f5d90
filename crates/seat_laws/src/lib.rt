//! Laws of a channel that several seats use: from what each of them did, one thing after the other, what holds of the journal.
#![tactic(auto)]

mod laws;

pub use laws::callbacks_are_obeyed_by_several_seats;
