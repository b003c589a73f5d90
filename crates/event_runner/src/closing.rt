//! The part of a turn that closes links.

ghost use Rattle.std.specs.Prelude.{◌≡◌, ◌<◌, ◌≤◌, ◌+◌, ℕ, IfOk, MatchBool, vec_len};
ghost use Rattle.channel_model.specs.Turn.{closing};
ghost use Rattle.event_runner.specs.State.{state_of};
ghost use Rattle.event_runner.specs.Goes.{Ends};
ghost use Rattle.event_runner.specs.Parts.{CutLook, CutPart, LooksAt, MakesPart};

use crate::kept::Kept;
use channel_model::Desk;
use item_list::NoMemory;
use net_world::World;

/// Closes each held link that isn't busy.
pub fn close_idle<D: Desk, W: World>(
    desk: &mut D,
    world: &mut W,
    kept: &mut Kept,
) -> Result<(), NoMemory>
    ensures goes { (reading : ℕ)
        → Ends (λ done. MakesPart reading closing 0 0 0) (CutPart reading closing) result
        (state_of (D.known desk.old) kept.old (W.log world.old))
        (state_of (D.known desk.new) kept.new (W.log world.new)) }
    ensures waits { W.wait_faults world.new ≡ W.wait_faults world.old }
    ensures faults { W.faults world.old ≤ W.faults world.new }
    ensures origin { W.origin world.new ≡ W.origin world.old }
{
    let mut index = 0;
    while index < kept.links.len() {
        if look_at(desk, world, kept, index)? {
            index += 1;
        }
    }
    Ok(())
}

/// Closes the held link at the index, unless it is busy. Answers whether it is still held.
fn look_at<D: Desk, W: World>(
    desk: &mut D,
    world: &mut W,
    kept: &mut Kept,
    index: usize,
) -> Result<bool, NoMemory>
    requires { index < vec_len kept.old.links }
    ensures goes { (reading : ℕ)
        → Ends (LooksAt reading index) (CutLook reading) result
        (state_of (D.known desk.old) kept.old (W.log world.old))
        (state_of (D.known desk.new) kept.new (W.log world.new)) }
    ensures left { IfOk result (λ stays. MatchBool stays (vec_len kept.new.links
        ≡ vec_len kept.old.links) (vec_len kept.new.links + 1 ≡ vec_len kept.old.links)) }
    ensures waits { W.wait_faults world.new ≡ W.wait_faults world.old }
    ensures faults { W.faults world.old ≤ W.faults world.new }
    ensures origin { W.origin world.new ≡ W.origin world.old }
{
    let link = &kept.links[index];
    let number = link.number();
    if desk.link_busy(link.server(), number) {
        return Ok(true);
    }
    world.close(number)?;
    kept.links.remove(index);
    Ok(false)
}
