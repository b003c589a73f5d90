//! The real outside of a resolver: `World` over sockets, the clock and a generator, `Files` over the system's files,
//! `Sink` over standard output, the words of the command line, and the numbers of the standard streams.
#![tactic(auto)]

mod asked;
mod clock;
mod ends;
mod frame_count;
mod inbox;
mod link;
mod local_failure;
mod network;
mod outbox;
mod peer;
mod port;
mod reading;
mod real_files;
mod real_sink;
mod reply;
mod served;
mod sock_world;
mod streams;
mod watch;
mod words;

pub use local_failure::LocalFailure;
pub use real_files::RealFiles;
pub use real_sink::RealSink;
pub use sock_world::SockWorld;
pub use streams::Streams;
pub use words::{texts_of, words_of};
