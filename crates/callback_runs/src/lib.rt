//! A channel with one owner who calls its callbacks, call by call. All of it is tests.
#![tactic(auto)]

#[cfg(test)]
mod tests;
