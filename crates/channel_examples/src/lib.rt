//! Worked journals and runs of a channel: theorems that compute, in `specs/` and `proofs/`. There is no code.
#![tactic(auto)]
