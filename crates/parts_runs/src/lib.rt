//! The parts below a channel: one question on its way, the lookup of addresses, what finds an attempt, what is called when a
//! request completes, and a cache of answers. All of it is tests.
#![tactic(auto)]

#[cfg(test)]
mod tests;
