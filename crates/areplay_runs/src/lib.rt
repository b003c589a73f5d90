//! Stored runs that areplay reads from files in memory. All of it is tests.
#![tactic(auto)]

#[cfg(test)]
mod tests;
