//! Telling a server's address, with a fresh client cookie for it.

ghost use Rattle.std.specs.Prelude.{◌≡◌};
ghost use Rattle.net_world.specs.declared.log.WorldCall.TheVariants.{Serve};
ghost use Rattle.cookie_world.specs.Rounds.{Goes};
ghost use Rattle.cookie_world.specs.Serving.{DrawsWords};
ghost use Rattle.cookie_world.specs.State.{state_of};

use crate::state::{Kept, Peer, make_room, put_peer, tell};
use item_list::{Bytes, NoMemory};
use net_addr::ServerAddr;
use net_world::{World, WorldCall};

/// Draws a client cookie for the server and tells its address. Its server cookie is forgotten. For want of memory words may
/// have been drawn.
pub(crate) fn serve_with<W: World>(
    world: &mut W,
    kept: &mut Kept,
    server: u32,
    address: &ServerAddr,
) -> Result<(), NoMemory>
    ensures goes { Goes (λ _. Serve server address.now) result (W.log world.old) (W.log world.new)
        (state_of kept.old) (state_of kept.new) }
    ensures waits { W.wait_faults world.new ≡ W.wait_faults world.old }
    ensures reading { W.reading world.new ≡ W.reading world.old }
    ensures origin { W.origin world.new ≡ W.origin world.old }
{
    make_room(kept)?;
    let mut cookie = Vec::with_capacity(kept.alloc, 8)?;
    draw_cookie(world, &mut cookie)?;
    world.serve(server, address)?;
    put_peer(
        &mut kept.peers,
        Peer {
            server,
            cookie: Bytes::from_vec(cookie),
        },
    );
    tell(
        kept,
        WorldCall::Serve {
            server,
            address: *address,
        },
    );
    Ok(())
}

/// Draws four words as a client cookie, the high byte of each first.
fn draw_cookie<W: World>(world: &mut W, cookie: &mut Vec<u8>) -> Result<(), NoMemory>
    ensures draws { DrawsWords 4 result (W.log world.old) (W.log world.new) cookie.old.items
        cookie.new.items }
    ensures waits { W.wait_faults world.new ≡ W.wait_faults world.old }
    ensures reading { W.reading world.new ≡ W.reading world.old }
    ensures origin { W.origin world.new ≡ W.origin world.old }
{
    draw_two(world, cookie)?;
    draw_two(world, cookie)
}

/// Draws two words.
fn draw_two<W: World>(world: &mut W, cookie: &mut Vec<u8>) -> Result<(), NoMemory>
    ensures draws { DrawsWords 2 result (W.log world.old) (W.log world.new) cookie.old.items
        cookie.new.items }
    ensures waits { W.wait_faults world.new ≡ W.wait_faults world.old }
    ensures reading { W.reading world.new ≡ W.reading world.old }
    ensures origin { W.origin world.new ≡ W.origin world.old }
{
    draw_one(world, cookie)?;
    draw_one(world, cookie)
}

/// Draws a word.
fn draw_one<W: World>(world: &mut W, cookie: &mut Vec<u8>) -> Result<(), NoMemory>
    ensures draws { DrawsWords 1 result (W.log world.old) (W.log world.new) cookie.old.items
        cookie.new.items }
    ensures waits { W.wait_faults world.new ≡ W.wait_faults world.old }
    ensures reading { W.reading world.new ≡ W.reading world.old }
    ensures origin { W.origin world.new ≡ W.origin world.old }
{
    let word = world.word()?;
    cookie.extend_from_slice(&word.to_be_bytes())?;
    Ok(())
}
