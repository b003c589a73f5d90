//! Domain names and messages of the Domain Name System: their types, reading and writing (RFC 1035, section 4).
#![tactic(auto)]

mod decoding;
mod encoding;
mod fault;
mod fault_laws;
mod fields;
mod grammar_laws;
mod held_rdata;
mod laws;
mod message;
mod name;
mod name_comparing;
mod name_making;
mod name_mixing;
mod name_printing;
mod name_reading;
mod name_text;
pub mod numbers;
mod rdata;
mod shape;

pub use decoding::decode;
pub use encoding::encode;
pub use fault::{EncodeFault, MessageFault, NameFault};
pub use fault_laws::names_end_at_the_first_fault;
pub use grammar_laws::{
    reading_ends_at_the_first_fault, reading_gives_what_is_spelled, written_messages_read_back,
};
pub use item_list::{Bytes, BytesList, ItemList, NoMemory};
pub use laws::{readings_agree, tests_decide};
pub use message::{Message, Question, QuestionList, Record, RecordList};
pub use name::{Name, NameList, NameText};
pub use name_mixing::mixed_names_are_the_same;
pub use name_printing::printed_names_read_back;
pub use name_reading::{Run, RunEnd, name_end, run_at};
pub use shape::{NamesShape, Shape, shape_of, string_count};
