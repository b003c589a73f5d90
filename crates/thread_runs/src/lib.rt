//! Channels that several threads ask and one runs, over a network in memory. All of it is tests.
#![tactic(auto)]

#[cfg(test)]
mod tests;
