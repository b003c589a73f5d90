//! Runs of a channel whose callbacks workers call. All of it is tests.
#![tactic(auto)]

#[cfg(test)]
mod tests;
