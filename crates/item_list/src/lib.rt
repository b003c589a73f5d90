//! Lists that contracts see as lists: the one list type under every list of the resolver's public data.
#![tactic(auto)]

mod aliases;
mod list;
mod no_memory;

pub use aliases::{Bytes, BytesList};
pub use list::ItemList;
pub use no_memory::NoMemory;
