//! The table of a channel: its requests, and the journal of what happened.
#![tactic(auto)]

mod alone;
mod answering;
mod concerned;
mod held;
mod held_lookup;
mod lookup;
mod row;
mod table;
mod wanted;

pub use alone::Alone;
pub use concerned::Concerned;
pub use lookup::Lookup;
pub use row::Row;
pub use table::Table;
pub use wanted::Wanted;
