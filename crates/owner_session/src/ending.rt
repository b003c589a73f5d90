//! How a session comes to its end.

ghost use Rattle.owner_session.specs.Ends.{IsEndOf};

use chan_types::Calls;
use item_list::NoMemory;
use run_end::{LoopEnd, end_of};
use tool_line::Exit;

/// How a session came to its end whose turns ended so, where so many requests were lost, and whose callbacks were called with
/// these answers. Where one was lost, memory was wanting.
pub fn ending_of(loop_end: Result<LoopEnd, NoMemory>, lost: u64, calls: &Calls) -> Exit
    ensures { IsEndOf loop_end lost calls.now result }
{
    if lost != 0 {
        Exit::OutOfMemory
    } else {
        end_of(loop_end, calls)
    }
}
