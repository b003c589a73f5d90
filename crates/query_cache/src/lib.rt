//! A cache of answers for one caller: each is kept by its question, for as long as its records live, and the answer
//! that was used longest ago makes room for a new one (RFC 1035, section 7.4).
#![tactic(auto)]

mod cache;
mod kept;
mod key;
mod laws;
mod lifetime;

pub use cache::QueryCache;
pub use kept::Kept;
pub use laws::{answers_live_for_the_least_ttl, kept_questions_stand};
