//! Four threads that ask, reply, cancel and deliver at one channel.

ghost use Rattle.std.specs.Prelude.{◌≡◌};
ghost use Rattle.shared_channel.specs.Staying.{StaysSettled};

use super::ending::ended;
use super::moves::{Move, played};
use super::telling::has_called_each;
use chan_types::NoMemory;
use completion_ticket::Scripted;
use shared_channel::{Channel, Finished, Pass, last_pass, plain_channel};
use std::alloc::Global;
use std::sync::Wait;
use std::test::*;
use std::thread::{Threads, join};

/// Ten requests, replies to five, a cancel, and ten deliveries.
const ROUND: [Move; 26] = [
    Move::Ask,
    Move::Ask,
    Move::Ask,
    Move::Ask,
    Move::Ask,
    Move::Ask,
    Move::Ask,
    Move::Ask,
    Move::Ask,
    Move::Ask,
    Move::ReplyAddress,
    Move::ReplyAddress,
    Move::ReplyAddress,
    Move::ReplyAddress,
    Move::ReplyAddress,
    Move::Cancel,
    Move::Deliver,
    Move::Deliver,
    Move::Deliver,
    Move::Deliver,
    Move::Deliver,
    Move::Deliver,
    Move::Deliver,
    Move::Deliver,
    Move::Deliver,
    Move::Deliver,
];

/// The rounds of two threads.
fn rounds_of_two<R: Threads + Wait + Sync>(
    rt: &R,
    channel: &Channel<Scripted>,
    left: Pass<Scripted>,
    right: Pass<Scripted>,
    alloc: Global,
) -> (Pass<Scripted>, Pass<Scripted>)
    requires left { left.lock ≡ channel.now }
    requires right { right.lock ≡ channel.now }
    ensures left { StaysSettled left result.0 }
    ensures right { StaysSettled right result.1 }
{
    join(
        rt,
        move ||
            requires { left.lock ≡ channel.now }
            ensures { StaysSettled left result }
        { played(rt, channel, left, alloc, &ROUND, 250) },
        move ||
            requires { right.lock ≡ channel.now }
            ensures { StaysSettled right result }
        { played(rt, channel, right, alloc, &ROUND, 250) },
    )
}

/// The rounds of four threads.
fn rounds_of_four<R: Threads + Wait + Sync>(
    rt: &R,
    channel: &Channel<Scripted>,
    left: (Pass<Scripted>, Pass<Scripted>),
    right: (Pass<Scripted>, Pass<Scripted>),
    alloc: Global,
) -> (
    (Pass<Scripted>, Pass<Scripted>),
    (Pass<Scripted>, Pass<Scripted>),
)
    requires left { (left.0.lock ≡ channel.now) × (left.1.lock ≡ channel.now) }
    requires right { (right.0.lock ≡ channel.now) × (right.1.lock ≡ channel.now) }
    ensures left { StaysSettled left.0 result.0.0 × StaysSettled left.1 result.0.1 }
    ensures right { StaysSettled right.0 result.1.0 × StaysSettled right.1 result.1.1 }
{
    let (first, second) = left;
    let (third, fourth) = right;
    join(
        rt,
        move ||
            requires { (first.lock ≡ channel.now) × (second.lock ≡ channel.now) }
            ensures { StaysSettled first result.0 × StaysSettled second result.1 }
        { rounds_of_two(rt, channel, first, second, alloc) },
        move ||
            requires { (third.lock ≡ channel.now) × (fourth.lock ≡ channel.now) }
            ensures { StaysSettled third result.0 × StaysSettled fourth result.1 }
        { rounds_of_two(rt, channel, third, fourth, alloc) },
    )
}

/// What is left of a channel behind four threads.
fn shared_by_four<R: Threads + Wait + Sync>(rt: &R, alloc: Global) -> Result<Finished, NoMemory> {
    let (channel, mut passes) = plain_channel(alloc, 4)?;
    let fourth = last_pass(&channel, &mut passes);
    let third = last_pass(&channel, &mut passes);
    let second = last_pass(&channel, &mut passes);
    let first = last_pass(&channel, &mut passes);
    let (left, right) = rounds_of_four(rt, &channel, (first, second), (third, fourth), alloc);
    passes.push_reserved(left.0);
    passes.push_reserved(left.1);
    passes.push_reserved(right.0);
    passes.push_reserved(right.1);
    Ok(ended(rt, channel, passes))
}

// Ten times, 10,000 requests of four threads are accepted, and each is called once.
#[test]
fn four_threads_share_a_channel(rt: HostRuntime) -> Result<(), Fail> {
    for _ in 0..10 {
        let finished = shared_by_four(&rt, rt.alloc())?;
        assert!(rt; has_called_each(rt.alloc(), &finished, 10_000)?);
    }
    Ok(())
}
