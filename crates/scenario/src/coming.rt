//! What comes on a network in memory.

ghost use Rattle.std.specs.Prelude.{All, IfOk};
ghost use Rattle.net_world.specs.Script.{MayCome};

use item_list::{Bytes, NoMemory};
use net_world::{Got, Timed};
use std::alloc::Global;

/// What comes on the network from a moment on, in milliseconds: a datagram of a server, a piece of a link, or the end of a
/// link. A piece without a byte is an end.
#[derive(Clone, Copy)]
pub enum Coming<'a> {
    Datagram {
        from: u64,
        server: u32,
        bytes: &'a [u8],
    },
    Piece {
        from: u64,
        link: u64,
        bytes: &'a [u8],
    },
    End {
        from: u64,
        link: u64,
    },
}

impl<'a> Coming<'a> {
    /// A datagram of a server.
    pub fn datagram(from: u64, server: u32, bytes: &'a [u8]) -> Coming<'a> {
        Coming::Datagram {
            from,
            server,
            bytes,
        }
    }

    /// A piece of a link.
    pub fn piece(from: u64, link: u64, bytes: &'a [u8]) -> Coming<'a> {
        Coming::Piece { from, link, bytes }
    }
}

/// The item of a network in memory.
fn item_of(alloc: Global, coming: &Coming<'_>) -> Result<Timed, NoMemory>
    ensures { IfOk result (λ item. MayCome item.got) }
{
    match *coming {
        Coming::Datagram {
            from,
            server,
            bytes,
        } => Ok(Timed {
            from,
            got: Got::Datagram(server, Bytes::of(alloc, bytes)?),
        }),
        Coming::Piece { from, link, bytes } if !bytes.is_empty() => Ok(Timed {
            from,
            got: Got::Piece(link, Bytes::of(alloc, bytes)?),
        }),
        Coming::Piece { from, link, .. } | Coming::End { from, link } => Ok(Timed {
            from,
            got: Got::Ended(link),
        }),
    }
}

/// The items of a network in memory, in order.
pub fn items_of(alloc: Global, comings: &[Coming<'_>]) -> Result<Vec<Timed>, NoMemory>
    ensures { IfOk result (λ items. All (λ item. MayCome item.got) items.items) }
{
    let mut items = Vec::new(alloc);
    for coming in comings {
        items.push(item_of(alloc, coming)?)?;
    }
    Ok(items)
}
