//! A channel over each kind of journal, call by call. All of it is tests.
#![tactic(auto)]

#[cfg(test)]
mod tests;
