//! Runs of `adig` on which a call of the network fails, or memory is refused. All of it is tests.
#![tactic(auto)]

#[cfg(test)]
mod tests;
