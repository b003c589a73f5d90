//! Runs of `ahost` on which a call of the files or of the output fails, or memory is refused. All of it is tests.
#![tactic(auto)]

#[cfg(test)]
mod tests;
