//! Tests of sessions of a channel that workers share.
#![tactic(auto)]

#[cfg(test)]
mod tests;
