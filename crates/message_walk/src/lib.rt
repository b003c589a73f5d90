//! A reply read part by part where it stands, without taking memory: whether it asks a question, whether it has an answer,
//! and what its OPT record says (RFC 1035, section 4.1; RFC 6891, section 6.1).
#![tactic(auto)]

mod fields;
mod naming;
mod options;
mod outlining;
mod questions;
mod rdata;
mod records;
mod sections;

pub use naming::name_is;
pub use outlining::{Outline, read_outline};
pub use questions::question_is;
pub use sections::{OptSeen, Section, section_at};
