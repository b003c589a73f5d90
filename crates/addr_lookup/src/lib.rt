//! What a request is answered without a query, and what the replies to an Address request's two questions come to.
#![tactic(auto)]

mod answering;
mod building;
mod finding;
mod leg_end;
mod merging;
mod ordering;
mod records;
mod searching;

pub use answering::at_once;
pub use leg_end::LegEnd;
pub use merging::merge;
