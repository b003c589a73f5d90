//! A run of a channel as text: its options, its hosts file and its journal, printed and read again.
#![tactic(auto)]

mod atom_printing;
mod atom_reading;
mod book;
mod book_printing;
mod book_reading;
mod cutting;
mod draft;
mod entry_printing;
mod entry_reading;
mod fault;
mod fitting;
mod laws;
mod line;
mod line_printing;
mod line_reading;
mod request_printing;
mod request_reading;
mod script_printing;
mod script_reading;
mod word_reading;

pub use book::Book;
pub use book_printing::{print_book, print_run};
pub use book_reading::read_book;
pub use fault::BookFault;
pub use laws::{printed_runs_read_back, texts_of_runs_differ};
