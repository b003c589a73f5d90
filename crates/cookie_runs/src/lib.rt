//! DNS cookies over messages byte by byte, and against forged replies over loopback. All of it is tests.
#![tactic(auto)]

#[cfg(test)]
mod tests;
