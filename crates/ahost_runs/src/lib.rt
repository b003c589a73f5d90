//! Whole runs of `ahost` over files, a network and an output in memory. All of it is tests.
#![tactic(auto)]

#[cfg(test)]
mod tests;
