//! The addresses of hosts, looked up over any network: of one host, or of many at once, whose callbacks ask on and cancel.
#![tactic(auto)]

mod delivering;
mod many;
mod one;
mod page;
mod request;
mod scripts;

pub use many::look_up_all;
pub use one::look_up;
pub use page::{put_addresses, put_answer, put_line};
pub use request::request_for;
