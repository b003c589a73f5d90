//! Whole runs of `ahost` with workers over files, a network and an output in memory. All of it is tests.
#![tactic(auto)]

#[cfg(test)]
mod tests;
