//! Requests at a channel with one owner.

ghost use Rattle.std.specs.Prelude.{◌≡◌, []};

use crate::asking::{NONE, callback, count_of, query, reply_to};
use chan_types::{Calls, NoMemory};
use channel_model::{Begun, Desk};
use channel_table::Alone;
use completion_ticket::{Callback, Hand, Scripted};
use hosts_file::Hosts;
use resolv_options::Options;
use std::alloc::Global;

/// So many requests, in rounds of ten. Answers how many callbacks were called.
pub fn run_alone(alloc: Global, count: u64) -> Result<u64, NoMemory> {
    match channel(alloc) {
        Ok(mut desk) => called_at(&mut desk, alloc, count),
        Err(fault) => Err(fault),
    }
}

/// A channel that was asked nothing.
fn channel(alloc: Global) -> Result<Alone<Callback<Scripted>>, NoMemory> {
    Alone::make(alloc, Options::plain(alloc)?, Hosts::empty(alloc))
}

/// The same at this channel: a check is long where a channel may be dropped in a loop.
fn called_at(
    desk: &mut Alone<Callback<Scripted>>,
    alloc: Global,
    count: u64,
) -> Result<u64, NoMemory> {
    let mut hand = Hand::make(alloc)?;
    let mut calls = Calls::new();
    rounds(desk, &mut hand, &mut calls, alloc, count / 10)?;
    Ok(count_of(&calls))
}

/// So many rounds.
fn rounds(
    desk: &mut Alone<Callback<Scripted>>,
    hand: &mut Hand,
    calls: &mut Calls,
    alloc: Global,
    times: u64,
) -> Result<(), NoMemory>
    requires { hand.old.commands ≡ [] }
{
    for _ in 0..times {
        round(desk, hand, calls, alloc)?;
    }
    Ok(())
}

/// Ten requests are asked, answered and delivered.
fn round(
    desk: &mut Alone<Callback<Scripted>>,
    hand: &mut Hand,
    calls: &mut Calls,
    alloc: Global,
) -> Result<(), NoMemory>
    requires { hand.old.commands ≡ [] }
    ensures { hand.new.commands ≡ [] }
{
    ask_ten(desk, alloc)?;
    reply_ten(desk)?;
    deliver_ten(desk, hand, calls);
    Ok(())
}

/// Asks ten requests.
fn ask_ten(desk: &mut Alone<Callback<Scripted>>, alloc: Global) -> Result<(), NoMemory> {
    for _ in 0..10 {
        let _accepted = desk.accept(query(alloc)?, callback(alloc)).is_ok();
    }
    Ok(())
}

/// Replies to ten attempts.
fn reply_ten(desk: &mut Alone<Callback<Scripted>>) -> Result<(), NoMemory> {
    for _ in 0..10 {
        reply(desk)?;
    }
    Ok(())
}

/// Begins an attempt, and takes in the reply to it.
fn reply(desk: &mut Alone<Callback<Scripted>>) -> Result<(), NoMemory> {
    if let Begun::Started {
        server,
        link,
        id,
        ..
    } = desk.start(1, 0, 0)?
    {
        desk.arrive(server, link, &reply_to(id))?;
    }
    Ok(())
}

/// Delivers ten requests.
fn deliver_ten(desk: &mut Alone<Callback<Scripted>>, hand: &mut Hand, calls: &mut Calls)
    requires { hand.old.commands ≡ [] }
    ensures { hand.new.commands ≡ [] }
{
    for _ in 0..10 {
        deliver(desk, hand, calls);
    }
}

/// Calls the callback of the first ready request, if there is one, and notes its answer.
fn deliver(desk: &mut Alone<Callback<Scripted>>, hand: &mut Hand, calls: &mut Calls)
    requires { hand.old.commands ≡ [] }
    ensures { hand.new.commands ≡ [] }
{
    let Some(ticket) = desk.take() else {
        return;
    };
    hand.set(NONE);
    let (token, call) = ticket.spend();
    let _called = token.call(call.answer(), hand);
    calls.add(call);
    clear(hand);
}

/// Lets the commands of a hand go.
fn clear(hand: &mut Hand)
    ensures { hand.new.commands ≡ [] }
{
    while let Some(_command) = hand.next() {}
}
