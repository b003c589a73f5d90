//! The parts that threads share: a lock whose holders take turns, a pool of workers, and a value that is
//! published. All of it is tests.
#![tactic(auto)]

#[cfg(test)]
mod tests;
