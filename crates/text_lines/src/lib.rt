//! Text files that people write: their lines, the words of a line, where a comment begins, and which words are names.
#![tactic(auto)]

mod line_reading;
mod name_words;
mod word_reading;

pub use dns_message::{Name, NameList};
pub use item_list::NoMemory;
pub use line_reading::{Lines, before_comment, lines_in};
pub use name_words::{read_name, read_names};
pub use word_reading::{words_before_comment, words_in};
