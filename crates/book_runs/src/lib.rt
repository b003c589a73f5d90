//! Runs as text, printed and read. All of it is tests.
#![tactic(auto)]

#[cfg(test)]
mod tests;
