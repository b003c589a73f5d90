//! Runs of a fleet of channels. All of it is tests.
#![tactic(auto)]

#[cfg(test)]
mod tests;
