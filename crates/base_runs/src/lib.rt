//! What many crates stand on: lists, addresses and their order, files and what they set, the outside in memory, journals. All
//! of it is tests.
#![tactic(auto)]

#[cfg(test)]
mod tests;
