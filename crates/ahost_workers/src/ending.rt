//! How the turns of a run ended, by how its session did.

ghost use Rattle.ahost_workers.specs.Ends.{IsTurnsEnd};

use item_list::NoMemory;
use run_end::LoopEnd;
use shared_session::SessionEnd;

/// How the turns of a session ended that came to this end.
pub(crate) fn turns_end(end: SessionEnd) -> Result<LoopEnd, NoMemory>
    ensures { IsTurnsEnd end result }
{
    match end {
        SessionEnd::Completed => Ok(LoopEnd::Completed),
        SessionEnd::WaitFault => Ok(LoopEnd::WaitFault),
        SessionEnd::Stalled => Ok(LoopEnd::Stalled),
        SessionEnd::OutOfMemory => Err(NoMemory),
    }
}
