//! Runs as memory is refused to them. With ample memory they are whole; `bench/refusals.py` refuses each of them one allocation.

use super::bodies::Deed;
use super::outside::{Outside, outside_of};
use super::{FOLLOWED, FOLLOWED_PAGE, Scenario, is_put, played};
use ahost_tool::Ended;
use scenario::is_called_once;
use std::alloc::Global;
use std::test::Fail;

/// The exit status of want of memory.
const OUT_OF_MEMORY: u8 = 5;

/// A run ended for want of memory as it has to. With ample memory no test may end so; its name tells it from want of memory of
/// the test itself.
#[derive(Debug, Drop)]
struct RunWantedMemory;

/// Three names are asked. The first is answered (RFC 1035, section 4.1), and its callback destroys the channel and asks again.
const DESTROYED: Scenario = Scenario {
    line: "--server 192.0.2.53 --no-edns --family 4 x.test. y.test. z.test.",
    replies: &[
        b"\x12\x34\x81\x80\0\x01\0\x01\0\0\0\0\x01x\x04test\0\0\x01\0\x01\xc0\x0c\0\x01\0\x01\0\0\x01\x2c\0\x04\xc0\0\x02\x01",
    ],
    deeds: &[&[Deed::Destroy, Deed::Ask], &[], &[]],
    ..FOLLOWED
};

const DESTROYED_PAGE: &str = "x.test. 0 SUCCESS
  192.0.2.1
y.test. 16 EDESTRUCTION
z.test. 16 EDESTRUCTION
";

/// A load of twelve names, over a network that the run makes.
const LOADED: Scenario = Scenario {
    line: "--load 12",
    replies: &[],
    deeds: &[&[], &[], &[], &[], &[], &[], &[], &[], &[], &[], &[], &[]],
    ..FOLLOWED
};

/// Its summary: every fourth name isn't there, and one first query in three is lost.
const LOADED_PAGE: &str = "load 12 seed 0
accepted 12
called 12
good 9
bad 3
starts 16
expires 4
";

/// Whether the run is whole, with this status and page, or ended for want of memory: that is then told by an error, where it
/// put nothing, and each request that it had accepted was called once.
fn is_whole(alloc: Global, scenario: &Scenario, status: u8, page: &str) -> Result<bool, Fail> {
    is_whole_in(
        alloc,
        scenario,
        status,
        page,
        &mut outside_of(alloc, scenario)?,
    )
}

/// The same of a run that is lent this.
fn is_whole_in(
    alloc: Global,
    scenario: &Scenario,
    status: u8,
    page: &str,
    outside: &mut Outside,
) -> Result<bool, Fail> {
    let ended = played(alloc, scenario, outside)?;
    if is_in_want(&ended, outside) {
        wanted()?;
    }
    Ok(
        ended.status == status
            && is_put(outside, page)
            && is_called_once(ended.journal.entries(), &ended.calls),
    )
}

/// Whether a run ended for want of memory as it has to.
fn is_in_want(ended: &Ended, outside: &Outside) -> bool {
    ended.status == OUT_OF_MEMORY
        && is_put(outside, "")
        && is_called_once(ended.journal.entries(), &ended.calls)
}

fn wanted() -> Result<(), RunWantedMemory> {
    Err(RunWantedMemory)
}

#[test]
fn a_destroyed_run_is_whole(rt: HostRuntime) -> Result<(), Fail> {
    assert!(rt; is_whole(rt.alloc(), &DESTROYED, 1, DESTROYED_PAGE)?);
    Ok(())
}

#[test]
fn a_followed_run_is_whole(rt: HostRuntime) -> Result<(), Fail> {
    assert!(rt; is_whole(rt.alloc(), &FOLLOWED, 0, FOLLOWED_PAGE)?);
    Ok(())
}

#[test]
fn a_load_is_whole(rt: HostRuntime) -> Result<(), Fail> {
    assert!(rt; is_whole(rt.alloc(), &LOADED, 1, LOADED_PAGE)?);
    Ok(())
}
