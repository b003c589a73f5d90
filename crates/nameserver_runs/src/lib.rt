//! The nameserver: its zones, its replies, its network in memory, its runs, and its side of the real network, asked over
//! loopback. All of it is tests.
#![tactic(auto)]

#[cfg(test)]
mod tests;
