//! Calls that are passed on alone.

ghost use Rattle.std.specs.Prelude.{◌≡◌, length, IfOk};
ghost use Rattle.net_world.specs.Cause.{HasCause, is_not_waited};
ghost use Rattle.net_world.specs.World.{IsPartOf, Reads};
ghost use Rattle.net_world.specs.declared.log.WorldCall.TheVariants.{Now, Word, Connect, Write, Close, Wait};
ghost use Rattle.cookie_world.specs.Rounds as meaning;
ghost use Rattle.cookie_world.specs.Rounds.{Goes};
ghost use Rattle.cookie_world.specs.State.{state_of};

use crate::state::{Kept, make_room, tell};
use item_list::{Bytes, NoMemory};
use net_world::{Got, Sent, Waited, World, WorldCall, Wrote};

/// Reads the clock.
pub(crate) fn now_with<W: World>(world: &mut W, kept: &mut Kept) -> Result<u64, NoMemory>
    ensures goes { Goes (λ reading. Now reading) result (W.log world.old) (W.log world.new)
        (state_of kept.old) (state_of kept.new) }
    ensures waits { W.wait_faults world.new ≡ W.wait_faults world.old }
    ensures reading { Reads (W.reading world.old) (W.reading world.new) result }
    ensures origin { W.origin world.new ≡ W.origin world.old }
{
    make_room(kept)?;
    let reading = world.now()?;
    tell(kept, WorldCall::Now { reading });
    Ok(reading)
}

/// Draws a word.
pub(crate) fn word_with<W: World>(world: &mut W, kept: &mut Kept) -> Result<u16, NoMemory>
    ensures goes { Goes (λ word. Word word) result (W.log world.old) (W.log world.new)
        (state_of kept.old) (state_of kept.new) }
    ensures waits { W.wait_faults world.new ≡ W.wait_faults world.old }
    ensures reading { W.reading world.new ≡ W.reading world.old }
    ensures origin { W.origin world.new ≡ W.origin world.old }
{
    make_room(kept)?;
    let word = world.word()?;
    tell(kept, WorldCall::Word { word });
    Ok(word)
}

/// Begins a link.
pub(crate) fn connect_with<W: World>(
    world: &mut W,
    kept: &mut Kept,
    server: u32,
    link: u64,
) -> Result<Sent, NoMemory>
    ensures goes { Goes (λ sent. Connect server link sent) result (W.log world.old) (W.log world.new)
        (state_of kept.old) (state_of kept.new) }
    ensures waits { W.wait_faults world.new ≡ W.wait_faults world.old }
    ensures reading { W.reading world.new ≡ W.reading world.old }
    ensures origin { W.origin world.new ≡ W.origin world.old }
{
    make_room(kept)?;
    let sent = world.connect(server, link)?;
    tell(kept, WorldCall::Connect { server, link, sent });
    Ok(sent)
}

/// Writes to a link.
pub(crate) fn write_with<W: World>(
    world: &mut W,
    kept: &mut Kept,
    link: u64,
    bytes: &[u8],
) -> Result<Wrote, NoMemory>
    ensures goes { Goes (λ wrote. Write link bytes.now wrote) result (W.log world.old) (W.log world.new)
        (state_of kept.old) (state_of kept.new) }
    ensures waits { W.wait_faults world.new ≡ W.wait_faults world.old }
    ensures reading { W.reading world.new ≡ W.reading world.old }
    ensures origin { W.origin world.new ≡ W.origin world.old }
    ensures answer { IfOk result (IsPartOf (length bytes.now)) }
{
    make_room(kept)?;
    let copy = Bytes::of(kept.alloc, bytes)?;
    let wrote = world.write(link, bytes)?;
    tell(
        kept,
        WorldCall::Write {
            link,
            bytes: copy,
            wrote,
        },
    );
    Ok(wrote)
}

/// Closes a link. A piece of it that is held is dropped.
pub(crate) fn close_with<W: World>(
    world: &mut W,
    kept: &mut Kept,
    link: u64,
) -> Result<(), NoMemory>
    ensures goes { Goes (λ _. Close link) result (W.log world.old) (W.log world.new) (state_of kept.old)
        (state_of kept.new) }
    ensures waits { W.wait_faults world.new ≡ W.wait_faults world.old }
    ensures reading { W.reading world.new ≡ W.reading world.old }
    ensures origin { W.origin world.new ≡ W.origin world.old }
{
    make_room(kept)?;
    world.close(link)?;
    kept.held = not_of(link, kept.held.take());
    tell(kept, WorldCall::Close { link });
    Ok(())
}

/// What is held, unless it is of this link.
fn not_of(link: u64, held: Option<Got>) -> Option<Got>
    ensures { result ≡ meaning.not_of link held }
{
    let got = held?;
    if got.is_of_link(link) {
        return None;
    }
    Some(got)
}

/// Waits.
pub(crate) fn wait_with<W: World>(
    world: &mut W,
    kept: &mut Kept,
    until: u64,
) -> Result<Waited, NoMemory>
    ensures goes { Goes (λ waited. Wait until waited) result (W.log world.old) (W.log world.new)
        (state_of kept.old) (state_of kept.new) }
    ensures waits { HasCause (W.wait_faults world.old) (W.wait_faults world.new) is_not_waited result }
    ensures reading { W.reading world.new ≡ W.reading world.old }
    ensures origin { W.origin world.new ≡ W.origin world.old }
{
    make_room(kept)?;
    let waited = world.wait(until)?;
    tell(kept, WorldCall::Wait { until, waited });
    Ok(waited)
}
