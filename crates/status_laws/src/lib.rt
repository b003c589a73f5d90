//! Which entry of a channel's journal brings a request its answer, and each status its cause.
#![tactic(auto)]

mod laws;

pub use laws::{
    a_lone_leg_completes_its_request, each_answer_has_one_entry, each_leg_ends_by_an_entry,
    each_status_has_its_cause,
};
