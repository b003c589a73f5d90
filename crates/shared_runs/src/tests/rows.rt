//! What callbacks command through a place, and the journal that comes of it.

use super::calls::query;
use super::moves::Move;
use super::row::{Row, played_alone};
use super::telling::{End, Played, ended_so};
use chan_types::{Act, Addr, Bytes, Family, Need, NoMemory, Script, Spec, Step, Steps, When};
use shared_channel::Finished;
use std::alloc::Global;
use std::sync::Wait;
use std::test::*;

/// A step for every answer and without an order.
fn always(act: Act) -> Step {
    Step {
        when: When::Always,
        need: Need::Nothing,
        act,
    }
}

/// Asks for `x.test.`
fn asks(alloc: Global) -> Result<Act, NoMemory> {
    Ok(Act::Ask(query(alloc)?, Script::blank(alloc, 2)))
}

/// A script of one step.
fn script_of(alloc: Global, step: Step) -> Result<Script, Fail> {
    let mut steps = Steps::new(alloc);
    steps.push(step)?;
    Ok(Script::new(1, steps)?)
}

/// A script that asks for `x.test.`
fn asking(alloc: Global) -> Result<Script, Fail> {
    script_of(alloc, always(asks(alloc)?))
}

/// Plays these moves behind a query whose callback has this script.
fn played_behind<R: Wait>(
    rt: &R,
    alloc: Global,
    script: Script,
    moves: &[Move],
) -> Result<Played, NoMemory> {
    let spec = query(alloc)?;
    played_alone(
        rt,
        alloc,
        Row {
            spec,
            script,
            moves,
        },
    )
}

// A cancel completes what is pending at its entry, and not what a callback asks behind it.
#[test]
fn a_callback_asks_behind_a_cancel(rt: HostRuntime) -> Result<(), Fail> {
    let alloc = rt.alloc();
    let moves = [
        Move::Ask,
        Move::Ask,
        Move::Cancel,
        Move::Deliver,
        Move::Deliver,
        Move::Deliver,
        Move::ReplyAddress,
        Move::Deliver,
    ];
    let played = played_behind(&rt, alloc, asking(alloc)?, &moves)?;
    let end = End {
        told: &[2, 3, 3, 1, 2, 3, 1, 4],
        journal: "accept 1\naccept 2\naccept 3\ncancel\n\
        take 1\naccept 4 by 1\ntake 2\ntake 3\nstart 4\narrive\ntake 4\ndestroy\n",
        calls: &[(1, 24), (2, 24), (3, 24), (4, 0)],
    };
    assert!(rt; ended_so(alloc, &played, &end)?);
    Ok(())
}

/// A script that destroys the channel, and asks for `x.test.` behind that.
fn destroying(alloc: Global) -> Result<Script, Fail> {
    let mut steps = Steps::new(alloc);
    steps.push(always(Act::Destroy))?;
    steps.push(always(asks(alloc)?))?;
    Ok(Script::new(1, steps)?)
}

// A callback destroys the channel, and what it asks behind that is refused and leaves nothing.
#[test]
fn a_callback_destroys_the_channel(rt: HostRuntime) -> Result<(), Fail> {
    let alloc = rt.alloc();
    let moves = [
        Move::Ask,
        Move::Ask,
        Move::ReplyAddress,
        Move::Deliver,
        Move::Deliver,
        Move::Deliver,
        Move::Ask,
        Move::Destroy,
        Move::Cancel,
    ];
    let played = played_behind(&rt, alloc, destroying(alloc)?, &moves)?;
    let end = End {
        told: &[2, 3, 1, 1, 2, 3, 0, 0, 0],
        journal: "accept 1\naccept 2\naccept 3\nstart 1\n\
        arrive\ntake 1\ndestroy by 1\ntake 2\ntake 3\n",
        calls: &[(1, 0), (2, 16), (3, 16)],
    };
    assert!(rt; ended_so(alloc, &played, &end)?);
    Ok(())
}

/// The addresses of both families that 192.0.2.1 has.
fn literal(alloc: Global) -> Result<Spec, NoMemory> {
    Ok(Spec::Address {
        host: Bytes::of(alloc, b"192.0.2.1")?,
        family: Family::Any,
        nosort: false,
    })
}

/// A request for them, whose callback asks for the names of the address that it is told.
fn reversing(alloc: Global, moves: &[Move]) -> Result<Row<'_>, Fail> {
    let step = Step {
        when: When::Good,
        need: Need::Follow,
        act: Act::Reverse(Script::blank(alloc, 2)),
    };
    let script = script_of(alloc, step)?;
    Ok(Row {
        spec: literal(alloc)?,
        script,
        moves,
    })
}

/// Whether the first callback was told 192.0.2.1 alone.
fn was_told(finished: &Finished) -> bool {
    match finished.calls.iter().next() {
        Some(answer) => answer.addresses.as_slice() == [Addr::V4(0xc000_0201)].as_slice(),
        None => false,
    }
}

// An address is answered at once, and its callback asks for the names of it.
#[test]
fn a_callback_asks_for_the_names_of_an_address(rt: HostRuntime) -> Result<(), Fail> {
    let alloc = rt.alloc();
    let moves = [Move::Deliver, Move::ReplyName, Move::Deliver];
    let played = played_alone(&rt, alloc, reversing(alloc, &moves)?)?;
    let end = End {
        told: &[1, 1, 2],
        journal: "accept 1\ntake 1\naccept 2 by 1\nstart 2\n\
        arrive\ntake 2\ndestroy\n",
        calls: &[(1, 0), (2, 0)],
    };
    assert!(rt; ended_so(alloc, &played, &end)?);
    assert!(rt; was_told(&played.finished));
    Ok(())
}
