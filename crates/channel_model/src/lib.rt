//! What a channel's journal means, and the calls of a channel.
#![tactic(auto)]

mod answers;
mod command_laws;
mod desk;
mod desk_laws;
mod frame_laws;
mod judged;
mod laws;
mod traffic_laws;

pub use answers::{Begun, Counts, Landed, Lapse, Refused, SetFault};
pub use command_laws::{
    commands_without_entry_had_nothing_to_do, requests_asked_in_time_are_accepted,
};
pub use desk::Desk;
pub use desk_laws::desks_go_on;
pub use frame_laws::framed_messages_come_back;
pub use judged::Judged;
pub use laws::{
    all_identifiers_are_many, attempts_are_on_listed_servers, attempts_share_their_link,
    cancel_completes_what_is_pending, completed_stays, completes_at_most_once, ended_legs_rest,
    flight_is_by_position, identifiers_in_flight_differ, journals_that_set_nothing_are_as_before,
    lawful_goes_on, lawful_is_decided, requests_are_numbered, server_keys_differ,
    sorted_is_computed,
};
pub use traffic_laws::{
    a_course_is_agreed_traffic, a_course_so_far_nearly_agrees, a_turn_receives_first,
    each_turn_reads_the_clock_once, each_turn_receives,
};
