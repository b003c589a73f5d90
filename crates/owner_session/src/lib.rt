//! A session of a channel's one owner: requests are accepted, turns are made, callbacks are called and obeyed, and the channel
//! is closed.
#![tactic(auto)]

mod bringing;
mod caller;
mod closing;
mod delivering;
mod ending;
mod places;
mod requests;
mod session;
mod session_end;

pub use bringing::bring_to_end;
pub use ending::ending_of;
pub use requests::Requests;
pub use session_end::SessionEnd;
