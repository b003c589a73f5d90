//! The OPT record of a message: reading it, adding it, and the response code that it extends (RFC 6891).
#![tactic(auto)]

mod fault;
mod laws;
mod opt;
mod rcode;
mod reading;
mod writing;

pub use fault::EdnsFault;
pub use laws::opt_is_computed;
pub use opt::{EdnsItem, Opt, OptionList};
pub use rcode::full_rcode;
pub use reading::find;
pub use writing::with_opt;
