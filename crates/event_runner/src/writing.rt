//! The part of a turn that writes what is framed.

ghost use Rattle.std.specs.Prelude.{◌≡◌, ◌<◌, ◌≤◌, ◌+◌, ℕ, Bool, IfOk, List, MatchBool, Option, vec_len};
ghost use Rattle.channel_model.specs.KeptLinks.{Row};
ghost use Rattle.channel_model.specs.Known.{Known};
ghost use Rattle.channel_model.specs.Turn.{writing};
ghost use Rattle.event_runner.specs.State.{state_of};
ghost use Rattle.event_runner.specs.Goes.{Ends};
ghost use Rattle.event_runner.specs.Parts.{CutPart, CutWriting, FlushEnds, MakesPart, WritesAt, with_row};

use crate::kept::Kept;
use crate::link::HeldLink;
use channel_model::Desk;
use item_list::NoMemory;
use net_world::{World, Wrote};

/// Writes to each held link what is to be written to it.
pub fn write_all<D: Desk, W: World>(
    desk: &mut D,
    world: &mut W,
    kept: &mut Kept,
    reading: u64,
) -> Result<(), NoMemory>
    ensures goes { Ends (λ done. MakesPart reading writing 0 0 0) (CutPart reading writing) result
        (state_of (D.known desk.old) kept.old (W.log world.old))
        (state_of (D.known desk.new) kept.new (W.log world.new)) }
    ensures waits { W.wait_faults world.new ≡ W.wait_faults world.old }
    ensures faults { W.faults world.old ≤ W.faults world.new }
    ensures origin { W.origin world.new ≡ W.origin world.old }
{
    let mut index = 0;
    while index < kept.links.len() {
        if write_one(desk, world, kept, index, reading)? {
            index += 1;
        }
    }
    Ok(())
}

/// Writes to the held link at the index what is to be written to it. Answers whether it is still held.
fn write_one<D: Desk, W: World>(
    desk: &mut D,
    world: &mut W,
    kept: &mut Kept,
    index: usize,
    reading: u64,
) -> Result<bool, NoMemory>
    requires { index < vec_len kept.old.links }
    ensures goes { Ends (λ stays. WritesAt reading index stays) (CutWriting reading) result
        (state_of (D.known desk.old) kept.old (W.log world.old))
        (state_of (D.known desk.new) kept.new (W.log world.new)) }
    ensures left { IfOk result (λ stays. MatchBool stays (vec_len kept.new.links
        ≡ vec_len kept.old.links) (vec_len kept.new.links + 1 ≡ vec_len kept.old.links)) }
    ensures waits { W.wait_faults world.new ≡ W.wait_faults world.old }
    ensures faults { W.faults world.old ≤ W.faults world.new }
    ensures origin { W.origin world.new ≡ W.origin world.old }
{
    let link = &mut kept.links[index];
    if flush(world, link)? {
        return Ok(true);
    }
    let number = link.number();
    desk.fault(link.server(), number, reading)?;
    world.close(number)?;
    kept.links.remove(index);
    Ok(false)
}

/// Writes to the link until nothing is left or the network takes no byte. Answers whether the link hasn't failed.
fn flush<W: World>(world: &mut W, link: &mut HeldLink) -> Result<bool, NoMemory>
    ensures goes { (reading : ℕ) (known : Known) (before after : List Row) (keys : List ℕ)
        (mix : Bool) → FlushEnds reading result
        (with_row reading known before after keys mix) link.old link.new (W.log world.old) (W.log world.new) }
    ensures number { link.new.number ≡ link.old.number }
    ensures server { link.new.server ≡ link.old.server }
    ensures waits { W.wait_faults world.new ≡ W.wait_faults world.old }
    ensures faults { W.faults world.old ≤ W.faults world.new }
    ensures origin { W.origin world.new ≡ W.origin world.old }
{
    while !link.unwritten().is_empty() {
        match world.write(link.number(), link.unwritten())? {
            Wrote::Count(0) => return Ok(true),
            Wrote::Count(count) => link.wrote(count),
            Wrote::Failed => return Ok(false),
        }
    }
    Ok(true)
}
