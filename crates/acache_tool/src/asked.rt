//! What a command line asks of acache.

ghost use Rattle.std.specs.Prelude.{◌≡◌, ◌≤◌, ◌↔◌, IfSome, IsTrue, None, codes, map};
ghost use Rattle.acache_tool.specs.Asked.{AreRefused, Asks, asked_of};

use net_addr::{Addr, read};
use tool_line::number;

/// The most answers that a cache has room for.
const ROOM_MOST: u32 = 65_536;

/// What a command line asks of acache: which server, for how many answers there is room, and the names.
#[derive(Clone, Copy)]
pub struct CacheAsk<'a> {
    pub server: Addr,
    pub room: u32,
    pub names: &'a [&'a str],
}

/// What the words ask: `--server A --room N`, and one name or more, in this order. It takes no memory.
pub(crate) fn cache_ask<'a>(words: &'a [&'a str]) -> Option<CacheAsk<'a>>
    ensures asks { IfSome result (λ ask. Asks (map (λ word. word.now) words.now) (asked_of ask)) }
    ensures limits { IfSome result (λ ask. (1 ≤ ask.room) × (ask.room ≤ 65536)) }
    ensures refused { result ≡ None → AreRefused (map (λ word. word.now) words.now) }
{
    let [server, address, room, count, names @ ..] = words else {
        return None;
    };
    let is_server = is_server_option(server);
    if !is_server {
        return None;
    }
    let is_room = is_room_option(room);
    if !is_room {
        return None;
    }
    let named = names.len();
    if named == 0 {
        return None;
    }
    match (read(address.as_bytes()), number(count, 1, ROOM_MOST)) {
        (Some(server), Some(room)) => Some(CacheAsk {
            server,
            room,
            names,
        }),
        _ => None,
    }
}

/// Whether the word is the option that names the server.
fn is_server_option(word: &str) -> bool
    ensures { IsTrue result ↔ (word.now ≡ codes "--server") }
{
    word == "--server"
}

/// Whether the word is the option that says for how many answers there is room.
fn is_room_option(word: &str) -> bool
    ensures { IsTrue result ↔ (word.now ≡ codes "--room") }
{
    word == "--room"
}
