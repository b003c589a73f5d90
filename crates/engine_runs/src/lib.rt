//! `sock_engine`'s network, clock, files and output over sockets of 127.0.0.1. All of it is tests.
#![tactic(auto)]

#[cfg(test)]
mod tests;
