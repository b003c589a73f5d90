//! What a resolver is set to: its options with their limits, resolv.conf, and the names that a search asks for.
#![tactic(auto)]

mod copying;
mod fault;
mod flags;
mod keyword;
mod lookups;
mod option_words;
mod options;
mod resolv_reading;
mod searching;
mod setting;

pub use dns_message::{Name, NameList, NameText};
pub use fault::ResolvFault;
pub use flags::Flags;
pub use item_list::NoMemory;
pub use lookups::Lookups;
pub use net_addr::{Addr, AddrList, ServerAddr, ServerList};
pub use options::Options;
pub use resolv_reading::read_resolv;
pub use searching::candidates;
