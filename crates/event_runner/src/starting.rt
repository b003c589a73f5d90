//! The part of a turn that starts attempts.

ghost use Rattle.std.specs.Prelude.{◌≡◌, ◌≤◌, List, Option};
ghost use Rattle.channel_model.specs.Turn.{starting};
ghost use Rattle.event_runner.specs.State.{state_of, Draws};
ghost use Rattle.event_runner.specs.Goes.{Ends};
ghost use Rattle.event_runner.specs.Parts.{BeginsOne, CutBeginning, MakesPart, CutPart};

use crate::asking::ask;
use crate::kept::Kept;
use channel_model::{Begun, Desk};
use item_list::NoMemory;
use net_world::World;

/// The most attempts that one turn starts.
const MOST: u64 = 65_536;

/// Starts what waits, each attempt with random words of its own. Answers how many attempts that were.
pub fn start_all<D: Desk, W: World>(
    desk: &mut D,
    world: &mut W,
    kept: &mut Kept,
    reading: u64,
) -> Result<u64, NoMemory>
    ensures goes { Ends (λ count. MakesPart reading starting 0 0 count)
        (CutPart reading starting) result (state_of (D.known desk.old) kept.old (W.log world.old))
        (state_of (D.known desk.new) kept.new (W.log world.new)) }
    ensures waits { W.wait_faults world.new ≡ W.wait_faults world.old }
    ensures faults { W.faults world.old ≤ W.faults world.new }
    ensures origin { W.origin world.new ≡ W.origin world.old }
{
    for started in 0..MOST {
        if !start_one(desk, world, kept, reading)? {
            return Ok(started);
        }
    }
    Ok(MOST)
}

/// Starts one attempt and asks its query, if a leg waits and an identifier is free.
fn start_one<D: Desk, W: World>(
    desk: &mut D,
    world: &mut W,
    kept: &mut Kept,
    reading: u64,
) -> Result<bool, NoMemory>
    ensures goes { Ends (BeginsOne reading) (CutBeginning reading) result
        (state_of (D.known desk.old) kept.old (W.log world.old))
        (state_of (D.known desk.new) kept.new (W.log world.new)) }
    ensures waits { W.wait_faults world.new ≡ W.wait_faults world.old }
    ensures faults { W.faults world.old ≤ W.faults world.new }
    ensures origin { W.origin world.new ≡ W.origin world.old }
{
    let word = world.word()?;
    let bits = draw_bits(world, kept.mix)?;
    match desk.start(word, bits, reading)? {
        Begun::Started {
            server,
            address,
            link,
            message,
            ..
        } => {
            ask(
                desk,
                world,
                kept,
                server,
                &address,
                link,
                message.as_slice(),
                reading,
            )?;
            Ok(true)
        }
        Begun::Idle => Ok(false),
        Begun::NoId => Ok(false),
    }
}

/// Draws the bits for the case of a query's letters, where they are drawn.
fn draw_bits<W: World>(world: &mut W, mix: bool) -> Result<u16, NoMemory>
    ensures draws { Draws mix result (W.log world.old) (W.log world.new) }
    ensures waits { W.wait_faults world.new ≡ W.wait_faults world.old }
    ensures faults { W.faults world.old ≤ W.faults world.new }
    ensures origin { W.origin world.new ≡ W.origin world.old }
{
    if mix { world.word() } else { Ok(0) }
}
