//! Sessions of a channel with one owner over a network in memory. All of it is tests.
#![tactic(auto)]

#[cfg(test)]
mod tests;
