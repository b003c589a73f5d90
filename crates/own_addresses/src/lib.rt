//! The addresses from which this machine reaches others, as files of its system tell them (proc(5)): the sources of RFC 6724,
//! section 4.
#![tactic(auto)]

mod choosing;
mod leaves;
mod machine;
mod telling;

pub use machine::own_addresses;
