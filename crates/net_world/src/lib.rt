//! The outside of a resolver as traits: network, clock and random words; files; output. And a form in memory of each.
#![tactic(auto)]

mod answers;
mod failing;
mod files;
mod got;
mod lent;
mod log;
mod mem_files;
mod mem_sink;
mod put_call;
mod read_call;
mod script_world;
mod scripted;
mod sink;
mod timed;
mod world;

pub use answers::{FileRead, Got, PutEnd, Sent, Waited, Wrote};
pub use failing::{Failing, raise};
pub use files::Files;
pub use log::{WorldCall, WorldLog};
pub use mem_files::MemFiles;
pub use mem_sink::MemSink;
pub use put_call::PutCall;
pub use read_call::ReadCall;
pub use script_world::ScriptWorld;
pub use sink::Sink;
pub use timed::Timed;
pub use world::World;
