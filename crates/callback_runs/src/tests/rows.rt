//! What callbacks command during a cancel and behind a destroy.

use super::{Move, played, query};
use chan_types::{Act, Need, NoMemory, Script, Step, Steps, When};
use std::alloc::Global;
use std::test::*;

/// A step for every answer and without an order.
fn always(act: Act) -> Step {
    Step {
        when: When::Always,
        need: Need::Nothing,
        act,
    }
}

/// Asks for the addresses of IPv4 of `x.test.`
fn asks(alloc: Global) -> Result<Act, NoMemory> {
    Ok(Act::Ask(query(alloc)?, Script::blank(alloc, 3)))
}

/// The script that asks.
pub fn asking(alloc: Global) -> Result<Script, Fail> {
    let mut steps = Steps::new(alloc);
    steps.push(always(asks(alloc)?))?;
    Ok(Script::new(1, steps)?)
}

/// The script that destroys the channel, and then asks.
pub fn destroying(alloc: Global) -> Result<Script, Fail> {
    let mut steps = Steps::new(alloc);
    steps.push(always(Act::Destroy))?;
    steps.push(always(asks(alloc)?))?;
    Ok(Script::new(1, steps)?)
}

/// Three requests are cancelled, and the callback of the first asks one more: that one stays, and its reply counts.
pub const CANCELLED: [Move; 10] = [
    Move::Ask,
    Move::Ask,
    Move::Cancel,
    Move::Deliver,
    Move::Deliver,
    Move::Deliver,
    Move::Count,
    Move::Reply,
    Move::Deliver,
    Move::Deliver,
];

#[test]
fn a_callback_asks_behind_a_cancel(rt: HostRuntime) -> Result<(), Fail> {
    let alloc = rt.alloc();
    let (told, journal) = played(alloc, asking(alloc)?, &CANCELLED)?;
    assert_eq!(rt;
        told.as_slice(),
        [2, 3, 3, 124, 224, 324, 1, 4, 400, 0].as_slice()
    );
    assert_eq!(rt;
        journal.as_str(),
        "accept 1\naccept 2\naccept 3\ncancel\n\
        take 1\nby 1 accept 4\ntake 2\ntake 3\n\
        start 4 on 0 over 0 at 0\narrive from 0 over 0\ntake 4\n"
    );
    Ok(())
}

/// The first of three requests gets its reply, and its callback destroys the channel: what it asks behind that is refused,
/// and so is what its owner asks; the others end with EDESTRUCTION.
pub const DESTROYED: [Move; 9] = [
    Move::Ask,
    Move::Ask,
    Move::Reply,
    Move::Deliver,
    Move::Deliver,
    Move::Deliver,
    Move::Ask,
    Move::Destroy,
    Move::Cancel,
];

#[test]
fn a_callback_destroys_the_channel(rt: HostRuntime) -> Result<(), Fail> {
    let alloc = rt.alloc();
    let (told, journal) = played(alloc, destroying(alloc)?, &DESTROYED)?;
    assert_eq!(rt;
        told.as_slice(),
        [2, 3, 1, 100, 216, 316, 0, 0, 0].as_slice()
    );
    assert_eq!(rt;
        journal.as_str(),
        "accept 1\naccept 2\naccept 3\n\
        start 1 on 0 over 0 at 0\narrive from 0 over 0\n\
        take 1\nby 1 destroy\ntake 2\ntake 3\n"
    );
    Ok(())
}
