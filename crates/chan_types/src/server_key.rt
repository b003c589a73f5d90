//! The servers of a channel, as the journal names them.

use item_list::ItemList;
use net_addr::ServerAddr;

/// A server of a channel. Its key is never given to another server, so it names this one in the whole journal; the
/// servers with which a channel is made have the keys 0, 1 and so on.
#[derive(Clone, Copy, Debug, PartialEq, Eq)]
pub struct ServerKey {
    pub key: u32,
    pub address: ServerAddr,
}

/// A list of servers with their keys.
pub type KeyList = ItemList<ServerKey>;
