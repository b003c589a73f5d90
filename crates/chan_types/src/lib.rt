//! The vocabulary of a channel: requests and their answers, scripts and the commands that they give,
//! the journal, tokens, tickets and calls.
#![tactic(auto)]

mod answer;
mod call;
mod calls;
mod command;
mod journal;
mod orders;
mod refusal;
mod runs;
mod script;
mod server_key;
mod spec;
mod status;
mod ticket;
mod token;

pub use answer::Answer;
pub use call::Call;
pub use calls::{Calls, CallsIter};
pub use command::Command;
pub use dns_message::{Bytes, Name, NoMemory};
pub use journal::{Entry, Journal, What};
pub use net_addr::{Addr, AddrList, Family};
pub use orders::{Need, Orders, When};
pub use refusal::Refusal;
pub use script::{Act, BadScript, Script, Step, Steps};
pub use server_key::{KeyList, ServerKey};
pub use spec::Spec;
pub use status::Status;
pub use ticket::Ticket;
pub use token::{Quiet, Token};
