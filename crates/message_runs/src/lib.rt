//! Names, messages, their walk and their rdata. All of it is tests.
#![tactic(auto)]

#[cfg(test)]
mod tests;
