//! Runs with two workers as memory is refused to them. With ample memory they are whole; `bench/refusals.py` refuses each of
//! them one allocation.

use super::loads::{TWELVE, loaded};
use super::pages::{DESTROYED, FOLLOWED, Row, play_row};
use super::playing::Played;
use std::alloc::Global;
use std::sync::Wait;
use std::test::*;
use std::thread::Threads;

/// The exit status of want of memory.
const OUT_OF_MEMORY: u8 = 5;

const WORKERS: u64 = 2;

/// A run ended for want of memory as it has to. With ample memory no test may end so; its name tells it from want of memory of
/// the test itself.
#[derive(Debug, Drop)]
struct RunWantedMemory;

/// Whether a run left this, or ended for want of memory: that is then told by an error, where it put nothing, and each request
/// that it had accepted was called once.
fn is_whole(played: &Played, status: u8, put: &str) -> Result<bool, RunWantedMemory> {
    if played.is(OUT_OF_MEMORY, "") {
        return Err(RunWantedMemory);
    }
    Ok(played.is(status, put))
}

/// The same of a row of the pages.
fn is_whole_row<R: Threads + Wait + Sync>(rt: &R, alloc: Global, row: &Row) -> Result<bool, Fail> {
    let played = play_row(rt, alloc, row, "", WORKERS)?;
    Ok(is_whole(&played, row.status, row.put)?)
}

#[test]
fn a_destroyed_run_is_whole(rt: HostRuntime) -> Result<(), Fail> {
    assert!(rt; is_whole_row(&rt, rt.alloc(), &DESTROYED)?);
    Ok(())
}

#[test]
fn a_followed_run_is_whole(rt: HostRuntime) -> Result<(), Fail> {
    assert!(rt; is_whole_row(&rt, rt.alloc(), &FOLLOWED)?);
    Ok(())
}

#[test]
fn a_load_is_whole(rt: HostRuntime) -> Result<(), Fail> {
    let played = loaded(&rt, rt.alloc(), "--load 12", WORKERS, 12)?;
    assert!(rt; is_whole(&played, 1, TWELVE)?);
    Ok(())
}
