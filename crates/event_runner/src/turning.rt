//! One turn, part by part.

ghost use Rattle.std.specs.Prelude.{◌≡◌, ◌≤◌, IfOk};
ghost use Rattle.event_runner.specs.State.{state_of};
ghost use Rattle.event_runner.specs.Goes.{Ends};
ghost use Rattle.event_runner.specs.Turning.{IsCutShort, MakesTurn};

use crate::answers::Turned;
use crate::closing::close_idle;
use crate::expiring::expire_all;
use crate::kept::Kept;
use crate::receiving::receive_all;
use crate::starting::start_all;
use crate::writing::write_all;
use channel_model::Desk;
use item_list::NoMemory;
use net_world::World;

/// One turn: it reads the clock, receives, lets expire, starts, writes and closes.
pub fn turn_once<D: Desk, W: World>(
    desk: &mut D,
    world: &mut W,
    kept: &mut Kept,
) -> Result<Turned, NoMemory>
    ensures goes { Ends MakesTurn IsCutShort result
        (state_of (D.known desk.old) kept.old (W.log world.old))
        (state_of (D.known desk.new) kept.new (W.log world.new)) }
    ensures clock { IfOk result (λ turned. W.reading world.old ≤ turned.reading) }
    ensures waits { W.wait_faults world.new ≡ W.wait_faults world.old }
    ensures faults { W.faults world.old ≤ W.faults world.new }
    ensures origin { W.origin world.new ≡ W.origin world.old }
{
    let reading = world.now()?;
    let received = receive_all(desk, world, kept, reading)?;
    let expired = expire_all(desk, reading)?;
    let started = start_all(desk, world, kept, reading)?;
    write_all(desk, world, kept, reading)?;
    close_idle(desk, world, kept)?;
    Ok(Turned {
        reading,
        received,
        expired,
        started,
    })
}
