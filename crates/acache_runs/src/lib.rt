//! Whole runs of acache over a network in memory. All of it is tests.
#![tactic(auto)]

#[cfg(test)]
mod tests;
