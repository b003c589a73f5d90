//! The words of the tools' command lines, what they ask, and the pages. All of it is tests.
#![tactic(auto)]

#[cfg(test)]
mod tests;
