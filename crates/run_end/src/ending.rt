//! The end of a run, by how its turns ended and by the answers that its callbacks were called with.

ghost use Rattle.std.specs.Prelude.{◌≡◌, ◌↔◌, IsTrue};
ghost use Rattle.chan_types.specs.declared.status.Status.TheVariants.{Success as WentWell};
ghost use Rattle.run_end.specs.Ends.{IsEndOf, IsPageEndOf};

use crate::loop_end::LoopEnd;
use chan_types::{Answer, Calls, Status};
use item_list::NoMemory;
use tool_line::Exit;

/// How a run came to its end whose turns ended so, and whose callbacks were called with these answers.
pub fn end_of(loop_end: Result<LoopEnd, NoMemory>, calls: &Calls) -> Exit
    ensures { IsEndOf loop_end calls.now result }
{
    match loop_end {
        Ok(LoopEnd::Completed) => page_end(calls),
        Ok(LoopEnd::WaitFault) => Exit::WaitFault,
        Ok(LoopEnd::Stalled) => Exit::Stalled,
        Err(NoMemory) => Exit::OutOfMemory,
    }
}

/// The end of a run whose requests completed.
fn page_end(calls: &Calls) -> Exit
    ensures { IsPageEndOf calls.now result }
{
    if calls.iter().all(is_success) {
        Exit::Success
    } else {
        Exit::Failure
    }
}

/// The request ended well.
fn is_success(answer: &Answer) -> bool
    ensures { IsTrue result ↔ (answer.now.status ≡ WentWell) }
{
    answer.status == Status::Success
}
