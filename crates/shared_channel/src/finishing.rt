//! The end of a shared channel.

ghost use Rattle.std.specs.List.{AllByRecursion};
ghost use Rattle.std.specs.Prelude.{◌≡◌, ◌<◌, ◌^◌, length};
ghost use Rattle.shared_channel.specs.Finishing.{AreAllPasses, DeliversAll, Finishes, HasSeenOwn};
ghost use Rattle.shared_channel.specs.Finishing.{IsAlone, IsJoined, JoinsPass};
ghost use Rattle.shared_channel.specs.Settling.{AreSettled};

use crate::account::Account;
use crate::channel::Channel;
use crate::pass::Pass;
use crate::place::Place;
use crate::spending::deliver_one;
use crate::state::{ChannelLock, SharedTable};
use chan_types::{Calls, Orders};
use channel_journal::{ChannelJournal, KeptJournal};
use channel_model::Desk;
use completion_ticket::Done;
use std::sync::Wait;

/// What is left of a channel: how many requests it accepted, its journal, the answers that were told, and how many
/// requests that callbacks asked were lost.
#[derive(Drop)]
pub struct Finished<J: ChannelJournal = KeptJournal> {
    pub accepted: u64,
    pub journal: J,
    pub calls: Calls,
    pub lost: u64,
}

/// Ends a channel: joins all passes into the first, destroys the channel, delivers all that is ready through that pass,
/// and takes the channel apart. It takes no memory, but for the requests that callbacks ask.
pub fn finish<B: Done + Drop, R: Wait, J: ChannelJournal>(
    rt: &R,
    channel: Channel<B, J>,
    passes: Vec<Pass<B, J>>,
    orders: Orders,
) -> Finished<J>
    requires all { AreAllPasses channel passes.items }
    requires settled { AreSettled passes.items }
    ensures { Finishes J.told orders passes.items result }
{
    let Channel { lock } = channel;
    let all = join_all(&lock, passes);
    let mut place = Place::at(rt, &lock, all);
    place.destroy();
    deliver_all(rt, &mut place, orders);
    let Pass { account, .. } = place.leave();
    let Account { seat, calls, lost } = account;
    let SharedTable { table } = lock.close(seat);
    let table = Box::into_inner(table);
    let accepted = table.accepted();
    Finished {
        accepted,
        journal: table.close(),
        calls,
        lost,
    }
}

/// Joins all passes into the first.
fn join_all<B: Done + Drop, J: ChannelJournal>(
    lock: &ChannelLock<B, J>,
    mut passes: Vec<Pass<B, J>>,
) -> Pass<B, J>
    requires some { 0 < length passes.items }
    requires lock { AllByRecursion (IsAlone lock.now) passes.items }
    ensures lock { result.lock ≡ lock.now }
    ensures joined { IsJoined passes.items result }
{
    let mut all = passes.pop().unwrap();
    look_at(&all);
    while let Some(next) = passes.pop() {
        all = join(lock, next, all);
    }
    all
}

/// Looks at a pass, so that what its type keeps is known: it has seen all that it made, and its count fits 64 bits.
fn look_at<B: Done + Drop, J: ChannelJournal>(pass: &Pass<B, J>)
    ensures own { HasSeenOwn pass.now }
    ensures few { pass.now.lost < 2 ^ 64 }
{
    let account = &pass.account;
    let _count = account.lost;
}

/// Joins the right pass into the left one.
fn join<B: Done + Drop, J: ChannelJournal>(
    lock: &ChannelLock<B, J>,
    left: Pass<B, J>,
    right: Pass<B, J>,
) -> Pass<B, J>
    requires left { left.lock ≡ lock.now }
    requires right { right.lock ≡ lock.now }
    ensures joins { JoinsPass left right result }
    ensures own { HasSeenOwn left }
{
    let Pass { account, hand } = left;
    let Pass { account: other, .. } = right;
    let account = join_accounts(lock, account, other);
    Pass { account, hand }
}

/// Joins the right account into the left one.
fn join_accounts<B: Done + Drop, J: ChannelJournal>(
    lock: &ChannelLock<B, J>,
    left: Account<B, J>,
    right: Account<B, J>,
) -> Account<B, J>
    requires left { left.lock ≡ lock.now }
    requires right { right.lock ≡ lock.now }
    ensures joins { JoinsPass left right result }
    ensures own { HasSeenOwn left }
{
    let Account {
        seat,
        mut calls,
        lost,
    } = left;
    let Account {
        seat: other,
        calls: more,
        lost: further,
    } = right;
    calls.append(more);
    let seat = lock.join(seat, other);
    let lost = lost.saturating_add(further);
    Account { seat, calls, lost }
}

/// Delivers until nothing is ready.
fn deliver_all<B: Done + Drop, R: Wait, J: ChannelJournal>(
    rt: &R,
    place: &mut Place<'_, B, R, J>,
    orders: Orders,
)
    ensures { DeliversAll orders place.old place.new }
{
    for _ in rt.forever() {
        let Some(_called) = deliver_one(place, orders) else {
            return;
        };
    }
    unreachable!()
}
