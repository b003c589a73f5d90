//! A run that is given turns enough comes to its end: how many turns the requests of a channel take at most.
#![tactic(auto)]

mod server_laws;
mod turn_laws;
mod waking_laws;

pub use server_laws::attempts_stay_where_no_servers_are_set;
pub use turn_laws::{a_course_comes_to_its_end, readings_cost_no_turn};
pub use waking_laws::a_script_wakes_in_time;
