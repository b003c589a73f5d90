//! Laws of a shared channel that was finished: from what was done through each of its passes, what holds of its journal.
#![tactic(auto)]

mod laws;

pub use laws::{
    a_finished_channel_is_destroyed_once, a_quiet_channel_ends_in_time,
    callbacks_of_a_finished_channel_are_obeyed,
};
