//! The owner of a channel, who takes what is ready, calls its callback, and performs what it commands on its request's
//! command: his moves as plain data, and what comes of them.

ghost use Rattle.std.specs.Prelude.{◌≡◌, [], IfOk};

mod destroying;
mod rows;

use chan_types::{Bytes, Entry, NoMemory, Script, Spec};
use channel_model::{Desk, Landed, Refused};
use channel_table::Alone;
use completion_ticket::{Callback, Hand, Scripted};
use dns_message::numbers::{CLASS_IN, KIND_A};
use hosts_file::Hosts;
use resolv_options::Options;
use scenario::journal_told;
use std::alloc::Global;
use std::test::Fail;
use ticket_delivery::spend;

/// The reply 192.0.2.1 to the query for the addresses of IPv4 of `x.test.`, with identifier 0 (RFC 1035, section 4.1).
const REPLY: &[u8] =
    b"\0\0\x81\x80\0\x01\0\x01\0\0\0\0\x01x\x04test\0\0\x01\0\x01\xc0\x0c\0\x01\0\x01\0\0\0\x3c\0\x04\xc0\0\x02\x01";

/// What the owner does.
#[derive(Clone, Copy)]
enum Move {
    /// Asks for the addresses of IPv4 of `x.test.`, with a callback that commands nothing.
    Ask,
    /// Begins an attempt of the first leg that waits, and takes in the reply to it.
    Reply,
    /// Takes the first ready request, and calls its callback.
    Deliver,
    Cancel,
    Destroy,
    /// Counts what is pending.
    Count,
}

/// The addresses of IPv4 that `x.test.` has.
fn query(alloc: Global) -> Result<Spec, NoMemory> {
    Ok(Spec::Query {
        name: Bytes::of(alloc, b"x.test.")?,
        kind: KIND_A,
        class: CLASS_IN,
    })
}

/// Asks this with a callback of this script. The number of the request, or 0 where it is refused.
fn asked(desk: &mut Alone<Callback<Scripted>>, spec: Spec, script: Script) -> u64 {
    match desk.accept(spec, Callback::scripted(script)) {
        Ok(number) => number,
        Err(Refused { why, token, .. }) => {
            token.refuse(why);
            0
        }
    }
}

/// Takes the first ready request, and spends its ticket. A hundred times the request's number and the code of its status, or
/// 0 where none is ready. No request is lost.
fn delivered(desk: &mut Alone<Callback<Scripted>>, hand: &mut Hand) -> u64
    requires { hand.old.commands ≡ [] }
    ensures { hand.new.commands ≡ [] }
{
    let Some(ticket) = desk.take() else {
        return 0;
    };
    desk.voice(0);
    let (called, call, lost) = spend(desk, hand, ticket);
    if lost != 0 {
        return u64::MAX;
    }
    called
        .number()
        .saturating_mul(100)
        .saturating_add(u64::from(call.answer().status.code()))
}

/// Begins an attempt with identifier 0, and takes in the reply to it. The request that it answers, or 0.
fn replied(desk: &mut Alone<Callback<Scripted>>) -> Result<u64, NoMemory> {
    let _begun = desk.start(0, 0, 0)?;
    Ok(match desk.arrive(0, 0, REPLY)? {
        Landed::Matched { number, .. } => number,
        Landed::Stray => 0,
    })
}

/// Makes a move. What it answers, as a number.
fn moved(
    alloc: Global,
    desk: &mut Alone<Callback<Scripted>>,
    hand: &mut Hand,
    to_make: Move,
) -> Result<u64, NoMemory>
    requires { hand.old.commands ≡ [] }
    ensures { hand.new.commands ≡ [] }
{
    Ok(match to_make {
        Move::Ask => asked(desk, query(alloc)?, Script::blank(alloc, 2)),
        Move::Reply => replied(desk)?,
        Move::Deliver => delivered(desk, hand),
        Move::Cancel => desk.cancel(),
        Move::Destroy => u64::from(desk.destroy()),
        Move::Count => desk.counts().pending,
    })
}

/// Makes these moves, in order. What each answers.
fn told_by(
    alloc: Global,
    desk: &mut Alone<Callback<Scripted>>,
    hand: &mut Hand,
    moves: &[Move],
) -> Result<Vec<u64>, NoMemory>
    requires { hand.old.commands ≡ [] }
{
    let mut told = Vec::new(alloc);
    for to_make in moves {
        told.push(moved(alloc, desk, hand, *to_make)?)?;
    }
    Ok(told)
}

/// A channel with the default options and no hosts.
fn channel(alloc: Global) -> Result<Alone<Callback<Scripted>>, NoMemory> {
    Alone::make(alloc, Options::plain(alloc)?, Hosts::empty(alloc))
}

/// A request whose callback has this script, and these moves behind it. What each move answers, and the journal's lines.
fn played(alloc: Global, script: Script, moves: &[Move]) -> Result<(Vec<u64>, String), Fail> {
    let (told, entries) = told_behind(alloc, false, script, moves)?;
    Ok((told, journal_told(alloc, entries.as_slice())?))
}

/// The same, on a channel that is destroyed before, where it is said: what each move answers, and the journal's entries.
fn told_behind(
    alloc: Global,
    is_destroyed: bool,
    script: Script,
    moves: &[Move],
) -> Result<(Vec<u64>, Vec<Entry>), Fail> {
    let spec = query(alloc)?;
    let mut hand = Hand::make(alloc)?;
    let mut desk = channel(alloc)?;
    if is_destroyed {
        let _first = desk.destroy();
    }
    let _number = asked(&mut desk, spec, script);
    let told = told_by(alloc, &mut desk, &mut hand, moves)?;
    Ok((told, desk.close().entries))
}
