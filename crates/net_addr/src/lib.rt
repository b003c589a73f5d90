//! Internet addresses: their texts, names and scopes (RFC 4291, RFC 5952, RFC 6724).
#![tactic(auto)]

mod addr;
mod ip;
mod mapping;
mod prefix;
mod reverse;
mod scopes;
mod text;

pub use addr::{Addr, AddrList, Family, ServerAddr, ServerList};
pub use mapping::{allows, is_mapped, mapped};
pub use prefix::common_prefix;
pub use reverse::reverse_name;
pub use scopes::scope;
pub use text::{print, read};
