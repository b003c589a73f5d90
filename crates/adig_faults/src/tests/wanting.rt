//! The run as memory is refused to it. With ample memory it is whole; `bench/refusals.py` refuses it one allocation.

use super::outside::{Outside, outside_of};
use super::{LINE, PAGE, is_put, played};
use adig_tool::Ended;
use scenario::is_called_once;
use std::alloc::Global;
use std::test::Fail;

/// The exit status of want of memory.
const OUT_OF_MEMORY: u8 = 5;

/// A run ended for want of memory as it has to. With ample memory no test may end so; its name tells it from want of memory of
/// the test itself.
#[derive(Debug, Drop)]
struct RunWantedMemory;

/// Whether the run is whole, or ended for want of memory: that is then told by an error, where it put nothing, and each request
/// that it had accepted was called once.
fn is_whole(alloc: Global) -> Result<bool, Fail> {
    is_whole_in(alloc, &mut outside_of(alloc, &[])?)
}

/// The same of a run that is lent this.
fn is_whole_in(alloc: Global, outside: &mut Outside) -> Result<bool, Fail> {
    let ended = played(alloc, LINE, outside)?;
    if is_in_want(&ended, outside) {
        wanted()?;
    }
    Ok(
        ended.status == 0
            && is_put(outside, PAGE)
            && is_called_once(ended.journal.entries(), &ended.calls),
    )
}

/// Whether a run ended for want of memory as it has to.
fn is_in_want(ended: &Ended, outside: &Outside) -> bool {
    ended.status == OUT_OF_MEMORY
        && is_put(outside, "")
        && is_called_once(ended.journal.entries(), &ended.calls)
}

fn wanted() -> Result<(), RunWantedMemory> {
    Err(RunWantedMemory)
}

#[test]
fn a_run_is_whole(rt: HostRuntime) -> Result<(), Fail> {
    assert!(rt; is_whole(rt.alloc())?);
    Ok(())
}
