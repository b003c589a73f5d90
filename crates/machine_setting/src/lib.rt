//! What this machine's files set for a channel: the options of resolv.conf, and the hosts file.
#![tactic(auto)]

mod said;
mod setting;

pub use setting::{HOSTS_PATH, RESOLV_PATH, read_setting};
