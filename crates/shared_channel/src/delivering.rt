//! Delivering several ready requests: their tickets are taken with one wait for the lock, and spent with no lock held.

ghost use Rattle.std.specs.Prelude.{◌≡◌, ◌≤◌, [], IfOk, OnErr, vec_capacity, vec_len};
ghost use Rattle.shared_channel.specs.Delivering.{DeliversUpTo, SpendsEach, TakesUpTo};

use crate::account::Account;
use crate::operations::TakeOp;
use crate::place::Place;
use crate::spending::spend;
use crate::state::ChannelLock;
use crate::turns::Turns;
use chan_types::{NoMemory, Orders, Ticket};
use channel_journal::ChannelJournal;
use completion_ticket::{Callback, Called, Done};
use std::alloc::Global;
use std::sync::Wait;

/// Takes ready requests, up to so many, with one wait for the lock, and then spends their tickets, one after the other, with
/// no lock held. Answers what is left of their callbacks, which is fewer where no more were ready. For want of memory
/// nothing is taken.
pub fn deliver_some<B: Done + Drop, R: Wait, J: ChannelJournal>(
    alloc: Global,
    place: &mut Place<'_, B, R, J>,
    orders: Orders,
    most: u64,
) -> Result<Vec<Called<B>>, NoMemory>
    ensures delivered { IfOk result
        (λ called. DeliversUpTo orders most place.old called.items place.new) }
    ensures refused { OnErr result (place.new ≡ place.old) }
{
    // a ticket that was taken must be spent: there is room for all of them before the first
    let mut tickets = Vec::with_capacity(alloc, most as usize)?;
    let mut called = Vec::with_capacity(alloc, most as usize)?;
    take_some(place, most, &mut tickets);
    spend_each(place, tickets, orders, &mut called);
    Ok(called)
}

/// Takes ready requests, up to so many, with one wait for the lock.
fn take_some<B: Done + Drop, R: Wait, J: ChannelJournal>(
    place: &mut Place<'_, B, R, J>,
    most: u64,
    tickets: &mut Vec<Ticket<Callback<B>>>,
)
    requires none { tickets.old.items ≡ [] }
    requires room { most ≤ vec_capacity tickets.old }
    ensures taken { TakesUpTo most place.old tickets.new.items place.new }
    ensures few { vec_len tickets.new ≤ most }
{
    take_at(&mut place.turns, most, tickets);
}

/// Takes ready requests at the channel's lock.
fn take_at<B: Done + Drop, R: Wait, J: ChannelJournal>(
    turns: &mut Turns<'_, B, R, J>,
    most: u64,
    tickets: &mut Vec<Ticket<Callback<B>>>,
)
    requires none { tickets.old.items ≡ [] }
    requires room { most ≤ vec_capacity tickets.old }
    ensures taken { TakesUpTo most turns.old tickets.new.items turns.new }
    ensures few { vec_len tickets.new ≤ most }
{
    let (rt, lock) = (turns.rt, turns.lock);
    take_through(rt, lock, &mut turns.account, most, tickets);
}

/// Takes ready requests through this account.
fn take_through<B: Done + Drop, R: Wait, J: ChannelJournal>(
    rt: &R,
    lock: &ChannelLock<B, J>,
    account: &mut Account<B, J>,
    most: u64,
    tickets: &mut Vec<Ticket<Callback<B>>>,
)
    requires lock { account.old.lock ≡ lock.now }
    requires none { tickets.old.items ≡ [] }
    requires room { most ≤ vec_capacity tickets.old }
    ensures lock { account.new.lock ≡ account.old.lock }
    ensures taken { TakesUpTo most account.old tickets.new.items account.new }
    ensures few { vec_len tickets.new ≤ most }
{
    lock.take_turns(rt, &mut account.seat, TakeOp, most, tickets);
}

/// Spends these tickets, one after the other.
fn spend_each<B: Done + Drop, R: Wait, J: ChannelJournal>(
    place: &mut Place<'_, B, R, J>,
    tickets: Vec<Ticket<Callback<B>>>,
    orders: Orders,
    called: &mut Vec<Called<B>>,
)
    requires none { called.old.items ≡ [] }
    requires room { vec_len tickets ≤ vec_capacity called.old }
    ensures { SpendsEach orders tickets.items place.old called.new.items place.new }
{
    for ticket in tickets {
        called.push_reserved(spend(place, ticket, orders));
    }
}
