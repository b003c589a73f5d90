//! The hosts file: which addresses a host has without being asked for (hosts(5)).
#![tactic(auto)]

mod fault;
mod file_reading;
mod hosts;
mod index;
mod searching;

pub use dns_message::{Name, NameList};
pub use fault::HostsFault;
pub use hosts::{HostLine, Hosts};
pub use item_list::NoMemory;
pub use net_addr::{Addr, AddrList, Family};
