//! Hosts' addresses looked up over real sockets of 127.0.0.1, with the nameserver in a thread. All of it is tests.
#![tactic(auto)]

#[cfg(test)]
mod tests;
