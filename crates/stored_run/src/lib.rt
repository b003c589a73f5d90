//! Stored runs: what areplay makes of a text that a tool puts with `--journal`, for the tests of the tools.
#![tactic(auto)]

mod replay;

pub use replay::{lawful_page, page_status, replayed};
