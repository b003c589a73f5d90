//! Requests of several threads at one channel, beside a thread that replies.

ghost use Rattle.std.specs.Prelude.{◌≡◌};
ghost use Rattle.shared_channel.specs.Finishing.{AreAllPasses};
ghost use Rattle.shared_channel.specs.Settling.{AreSettled};
ghost use Rattle.shared_channel.specs.Staying.{StaysSettled};

use crate::asking::{NONE, count_of};
use crate::held::{reply_all_held, rounds_held};
use crate::place::{reply_all, rounds, whole_rounds};
use chan_types::NoMemory;
use completion_ticket::Scripted;
use shared_channel::{Channel, Finished, Pass, finish, last_pass, plain_channel};
use std::alloc::Global;
use std::sync::Wait;
use std::thread::{Threads, join};
use std::time::Clock;

/// How many requests were accepted, and how many calls their callbacks had.
#[derive(Drop)]
pub struct Ended {
    pub accepted: u64,
    pub called: u64,
}

/// Replies to so many attempts through a pass.
fn replied<R: Wait + Clock>(
    rt: &R,
    channel: &Channel<Scripted>,
    pass: Pass<Scripted>,
    count: u64,
    held: bool,
) -> Pass<Scripted>
    requires { pass.lock ≡ channel.now }
    ensures { StaysSettled pass result }
{
    let mut place = channel.place(rt, pass);
    if held {
        return reply_all_held(rt, place, count).leave();
    }
    reply_all(rt, &mut place, count);
    place.leave()
}

/// So many requests through a pass, to which others reply.
fn asked<R: Wait + Clock>(
    rt: &R,
    channel: &Channel<Scripted>,
    pass: Pass<Scripted>,
    alloc: Global,
    count: u64,
    held: bool,
) -> Pass<Scripted>
    requires { pass.lock ≡ channel.now }
    ensures { StaysSettled pass result }
{
    let mut place = channel.place(rt, pass);
    if held {
        return rounds_held(rt, place, alloc, count).leave();
    }
    rounds(rt, &mut place, alloc, count);
    place.leave()
}

/// The requests of two threads.
fn asked_by_two<R: Threads + Wait + Sync + Clock>(
    rt: &R,
    channel: &Channel<Scripted>,
    left: Pass<Scripted>,
    right: Pass<Scripted>,
    alloc: Global,
    counts: [u64; 2],
    held: bool,
) -> (Pass<Scripted>, Pass<Scripted>)
    requires left { left.lock ≡ channel.now }
    requires right { right.lock ≡ channel.now }
    ensures left { StaysSettled left result.0 }
    ensures right { StaysSettled right result.1 }
{
    let [one, other] = counts;
    join(
        rt,
        move ||
            requires { left.lock ≡ channel.now }
            ensures { StaysSettled left result }
        { asked(rt, channel, left, alloc, one, held) },
        move ||
            requires { right.lock ≡ channel.now }
            ensures { StaysSettled right result }
        { asked(rt, channel, right, alloc, other, held) },
    )
}

/// The requests of four threads.
fn asked_by_four<R: Threads + Wait + Sync + Clock>(
    rt: &R,
    channel: &Channel<Scripted>,
    left: (Pass<Scripted>, Pass<Scripted>),
    right: (Pass<Scripted>, Pass<Scripted>),
    alloc: Global,
    counts: [u64; 4],
    held: bool,
) -> (
    (Pass<Scripted>, Pass<Scripted>),
    (Pass<Scripted>, Pass<Scripted>),
)
    requires left { (left.0.lock ≡ channel.now) × (left.1.lock ≡ channel.now) }
    requires right { (right.0.lock ≡ channel.now) × (right.1.lock ≡ channel.now) }
    ensures left { StaysSettled left.0 result.0.0 × StaysSettled left.1 result.0.1 }
    ensures right { StaysSettled right.0 result.1.0 × StaysSettled right.1 result.1.1 }
{
    let [one, two, three, four] = counts;
    let (first, second) = left;
    let (third, fourth) = right;
    join(
        rt,
        move ||
            requires { (first.lock ≡ channel.now) × (second.lock ≡ channel.now) }
            ensures { StaysSettled first result.0 × StaysSettled second result.1 }
        { asked_by_two(rt, channel, first, second, alloc, [one, two], held) },
        move ||
            requires { (third.lock ≡ channel.now) × (fourth.lock ≡ channel.now) }
            ensures { StaysSettled third result.0 × StaysSettled fourth result.1 }
        { asked_by_two(rt, channel, third, fourth, alloc, [three, four], held) },
    )
}

/// The requests of four threads, and a fifth that replies to all of them.
fn asked_and_replied<R: Threads + Wait + Sync + Clock>(
    rt: &R,
    channel: &Channel<Scripted>,
    left: (Pass<Scripted>, Pass<Scripted>),
    right: (Pass<Scripted>, Pass<Scripted>),
    replying: Pass<Scripted>,
    alloc: Global,
    counts: [u64; 4],
    held: bool,
) -> (
    (
        (Pass<Scripted>, Pass<Scripted>),
        (Pass<Scripted>, Pass<Scripted>),
    ),
    Pass<Scripted>,
)
    requires left { (left.0.lock ≡ channel.now) × (left.1.lock ≡ channel.now) }
    requires right { (right.0.lock ≡ channel.now) × (right.1.lock ≡ channel.now) }
    requires replying { replying.lock ≡ channel.now }
    ensures left { StaysSettled left.0 result.0.0.0 × StaysSettled left.1 result.0.0.1 }
    ensures right { StaysSettled right.0 result.0.1.0 × StaysSettled right.1 result.0.1.1 }
    ensures replying { StaysSettled replying result.1 }
{
    let all = sum_of(counts);
    let (first, second) = left;
    let (third, fourth) = right;
    join(
        rt,
        move ||
            requires { (first.lock ≡ channel.now) × (second.lock ≡ channel.now)
                × (third.lock ≡ channel.now) × (fourth.lock ≡ channel.now) }
            ensures { (StaysSettled first result.0.0 × StaysSettled second result.0.1)
                × (StaysSettled third result.1.0 × StaysSettled fourth result.1.1) }
        {
            asked_by_four(
                rt,
                channel,
                (first, second),
                (third, fourth),
                alloc,
                counts,
                held,
            )
        },
        move ||
            requires { replying.lock ≡ channel.now }
            ensures { StaysSettled replying result }
        { replied(rt, channel, replying, all, held) },
    )
}

/// The sum of these counts.
fn sum_of(counts: [u64; 4]) -> u64 {
    let [one, two, three, four] = counts;
    one.wrapping_add(two).wrapping_add(three).wrapping_add(four)
}

/// How many requests each of four threads asks, where so many of them ask so many in all, in rounds of ten.
fn shares(threads: u64, count: u64) -> [u64; 4] {
    match threads {
        0 | 1 => [count / 10 * 10, 0, 0, 0],
        2 | 3 => [count / 20 * 10, count / 20 * 10, 0, 0],
        _ => [count / 40 * 10; 4],
    }
}

/// Requests of one, two or four threads, beside one that replies. Each thread makes the calls that it has at hand one by
/// one, or under one hold of the lock.
pub fn run_shared<R: Threads + Wait + Sync + Clock>(
    rt: &R,
    alloc: Global,
    threads: u64,
    count: u64,
    held: bool,
) -> Result<Ended, NoMemory> {
    let (channel, mut passes) = plain_channel(alloc, 5)?;
    let fifth = last_pass(&channel, &mut passes);
    let fourth = last_pass(&channel, &mut passes);
    let third = last_pass(&channel, &mut passes);
    let second = last_pass(&channel, &mut passes);
    let first = last_pass(&channel, &mut passes);
    let counts = shares(threads, count);
    let (asking, replying) = asked_and_replied(
        rt,
        &channel,
        (first, second),
        (third, fourth),
        fifth,
        alloc,
        counts,
        held,
    );
    let (left, right) = asking;
    passes.push_reserved(left.0);
    passes.push_reserved(left.1);
    passes.push_reserved(right.0);
    passes.push_reserved(right.1);
    passes.push_reserved(replying);
    Ok(end_of(finish_all(rt, channel, passes)))
}

/// What is left of a channel whose passes are all back. Who calls it says both that `finish` wants at once, so that how the
/// passes came back is told once.
fn finish_all<R: Wait>(rt: &R, channel: Channel<Scripted>, passes: Vec<Pass<Scripted>>) -> Finished
    requires { AreAllPasses channel passes.items × AreSettled passes.items }
{
    finish(rt, channel, passes, NONE)
}

/// How many were accepted and called.
fn end_of(finished: Finished) -> Ended {
    Ended {
        accepted: finished.accepted,
        called: count_of(&finished.calls),
    }
}

/// Requests and replies of one thread through a pass.
fn worked<R: Wait + Clock>(
    rt: &R,
    channel: &Channel<Scripted>,
    pass: Pass<Scripted>,
    alloc: Global,
    count: u64,
) -> Pass<Scripted>
    requires { pass.lock ≡ channel.now }
    ensures { StaysSettled pass result }
{
    let mut place = channel.place(rt, pass);
    whole_rounds(rt, &mut place, alloc, count);
    place.leave()
}

/// Requests through the one pass of a channel, in one thread.
pub fn run_one<R: Wait + Clock>(rt: &R, alloc: Global, count: u64) -> Result<Ended, NoMemory> {
    let (channel, mut passes) = plain_channel(alloc, 1)?;
    let pass = last_pass(&channel, &mut passes);
    let pass = worked(rt, &channel, pass, alloc, count);
    passes.push_reserved(pass);
    Ok(end_of(finish_all(rt, channel, passes)))
}
