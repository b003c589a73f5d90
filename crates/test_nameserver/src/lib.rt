//! A nameserver over a zone, for tests: reading the zone, what is answered to a query (RFC 1035, sections 3 and 4), and a
//! run that answers what comes.
#![tactic(auto)]

mod answering;
mod ending;
mod fault;
mod hearing;
mod laws;
mod line_reading;
mod links;
mod listener;
mod mem_listener;
mod messages;
mod order;
mod peer;
mod peer_world;
mod query;
mod rdata_words;
mod replying;
mod running;
mod serving;
mod words;
mod zone;
mod zone_loading;
mod zone_reading;

pub use ending::{BAD_ZONE, FILE_FAULT, OUT_OF_MEMORY, SINK_FAULT, SOCKET_FAULT, SUCCESS, USAGE};
pub use fault::ZoneFault;
pub use item_list::{Bytes, NoMemory};
pub use laws::{a_wait_is_woken_well, an_origin_tells_zone_and_seed, keys_tell_questions_apart};
pub use listener::{Heard, Listener, ListenerCall};
pub use mem_listener::MemListener;
pub use messages::first_message;
pub use peer_world::PeerWorld;
pub use replying::answer;
pub use running::run;
pub use zone::Zone;
