//! Workers that spend the tickets that one sender offers, each once.
#![tactic(auto)]

mod draining;
mod message;
mod offering;
mod part;
mod pool;
mod round;
mod spender;
mod spending;
mod working;

pub use message::Message;
pub use offering::{Sender, offer_all};
pub use part::{Part, beside};
pub use pool::Pool;
pub use round::run_round;
pub use spender::Spender;
pub use working::Worker;
