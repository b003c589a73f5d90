//! Laws of a channel with one owner, whose turns a runner makes. There is no code: `specs` and `proofs` have what
//! crates above cite.
#![tactic(auto)]
