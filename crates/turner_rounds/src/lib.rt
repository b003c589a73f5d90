//! Rounds of a channel whose turns a turner makes: the turner as a pump, and laws of what was done through each place.
#![tactic(auto)]

mod laws;
mod pump;

pub use laws::{a_turner_goes_on_over_rounds, served_places_have_their_courses};
pub use pump::TurnerPump;
