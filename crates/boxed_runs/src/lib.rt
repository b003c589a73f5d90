//! The channel for C, call by call. All of it is tests.
#![tactic(auto)]

#[cfg(test)]
mod tests;
