//! One pause.

ghost use Rattle.std.specs.Prelude.{◌≡◌, ◌≤◌, ◌==◌, ◌||◌, ◌&&◌, Ok, min, nat_lt, not};
ghost use Rattle.std.specs.Option.{option_map_or};
ghost use Rattle.net_world.specs.Cause.{Rose};
ghost use Rattle.channel_model.specs.Turn.{most_entries};
ghost use Rattle.event_runner.specs.Running.{Pauses};

use crate::answers::Paused;
use channel_model::{Counts, Desk};
use item_list::NoMemory;
use net_world::{Waited, World};

/// How many identifiers there are: so many attempts may be in flight.
const IDS: u64 = 65_536;

/// Waits once, until the least deadline or `latest`, the earlier of the two, unless the channel has something to do.
pub fn pause_once<D: Desk, W: World>(
    desk: &mut D,
    world: &mut W,
    latest: u64,
) -> Result<Paused, NoMemory>
    ensures pauses { Pauses latest result (D.known desk.old) (D.known desk.new) (W.log world.old)
        (W.log world.new) }
    ensures wait_fault { result ≡ Ok Paused.WaitFault
        → Rose (W.wait_faults world.old) (W.wait_faults world.new) }
    ensures waits { W.wait_faults world.old ≤ W.wait_faults world.new }
    ensures faults { W.faults world.old ≤ W.faults world.new }
    ensures clock { W.reading world.new ≡ W.reading world.old }
    ensures origin { W.origin world.new ≡ W.origin world.old }
{
    if skips(&desk.counts()) {
        return Ok(Paused::Skipped);
    }
    let due = desk.next_due();
    match world.wait(earlier(due, latest))? {
        Waited::Woken => Ok(Paused::Woken),
        Waited::Failed => Ok(Paused::WaitFault),
    }
}

/// The earlier of the two moments.
fn earlier(due: Option<u64>, latest: u64) -> u64
    ensures { result ≡ option_map_or (λ moment. min moment latest) due latest }
{
    match due {
        None => latest,
        Some(moment) => moment.min(latest),
    }
}

/// Nothing is pending, or something is ready, or a leg waits and an identifier is left.
fn skips(counts: &Counts) -> bool
    ensures { result ≡ ((counts.now.pending == 0) || not (counts.now.ready == 0)
        || (not (counts.now.waiting == 0) && nat_lt counts.now.flying most_entries)) }
{
    counts.pending == 0 || counts.ready != 0 || (counts.waiting != 0 && counts.flying < IDS)
}
