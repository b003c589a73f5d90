//! What the command lines of adig and ahost say, and the pages that the two print.
#![tactic(auto)]

mod adig;
mod ahost;
mod block;
mod ending;
mod fault;
mod files;
mod given;
mod heads;
mod page;
mod settings;
mod switches;
mod text;
mod values;
mod words;

pub use adig::{AdigAsk, adig_ask};
pub use ahost::{AhostAsk, Load, SpecList, ahost_ask};
pub use block::block_lines;
pub use ending::{Exit, Tool};
pub use fault::WordFault;
pub use files::{FileFault, HOSTS_MOST, RESOLV_MOST, hosts_read, resolv_file, set_options};
pub use heads::{label, page_of};
pub use page::adig_page;
pub use settings::Settings;
pub use switches::Switches;
pub use values::{addresses, family, number, path};
pub use words::{Choice, Words, read_words};
