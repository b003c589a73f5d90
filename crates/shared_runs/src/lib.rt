//! Runs of a channel that threads share, to its end. All of it is tests.
#![tactic(auto)]

#[cfg(test)]
mod tests;
