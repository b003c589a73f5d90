//! What the rdata of records says, and records as lines of text (RFC 1035, section 5.1; RFC 3597).
#![tactic(auto)]

mod data;
mod fault;
mod laws;
mod lines;
mod names;
mod parts;
mod text;
mod typing;
mod words;

pub use data::RecordData;
pub use fault::RdataFault;
pub use laws::{parts_are_as_spelled, printed_words_read_back, well_formed_records_are_typed};
pub use lines::line;
pub use typing::rdata;
pub use words::{class_text, class_word, kind_text, kind_word};
