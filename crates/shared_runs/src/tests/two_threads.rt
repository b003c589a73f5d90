//! Two threads at one channel of three passes: one asks and cancels, the other replies, and nobody takes until the end.

ghost use Rattle.std.specs.Prelude.{◌≡◌};
ghost use Rattle.shared_channel.specs.Staying.{StaysSettled};

use super::ending::ended;
use super::moves::{Move, played};
use super::telling::has_called_each;
use chan_types::NoMemory;
use completion_ticket::Scripted;
use shared_channel::{Channel, Finished, Pass, last_pass, plain_channel};
use std::alloc::Global;
use std::sync::Wait;
use std::test::*;
use std::thread::{Threads, join};

/// Ten requests, and a cancel.
const TEN: [Move; 11] = [
    Move::Ask,
    Move::Ask,
    Move::Ask,
    Move::Ask,
    Move::Ask,
    Move::Ask,
    Move::Ask,
    Move::Ask,
    Move::Ask,
    Move::Ask,
    Move::Cancel,
];

/// One thread asks 200 requests and cancels after each tenth, the other replies 2,000 times to what waits.
fn ask_and_reply<R: Threads + Wait + Sync>(
    rt: &R,
    channel: &Channel<Scripted>,
    asking: Pass<Scripted>,
    replying: Pass<Scripted>,
    alloc: Global,
) -> (Pass<Scripted>, Pass<Scripted>)
    requires asking { asking.lock ≡ channel.now }
    requires replying { replying.lock ≡ channel.now }
    ensures asking { StaysSettled asking result.0 }
    ensures replying { StaysSettled replying result.1 }
{
    join(
        rt,
        move ||
            requires { asking.lock ≡ channel.now }
            ensures { StaysSettled asking result }
        { played(rt, channel, asking, alloc, &TEN, 20) },
        move ||
            requires { replying.lock ≡ channel.now }
            ensures { StaysSettled replying result }
        { played(rt, channel, replying, alloc, &[Move::ReplyAddress], 2000) },
    )
}

/// What is left of a channel behind both threads.
fn shared_by_two<R: Threads + Wait + Sync>(rt: &R, alloc: Global) -> Result<Finished, NoMemory> {
    let (channel, mut passes) = plain_channel(alloc, 3)?;
    let third = last_pass(&channel, &mut passes);
    let second = last_pass(&channel, &mut passes);
    let first = last_pass(&channel, &mut passes);
    let (first, second) = ask_and_reply(rt, &channel, first, second, alloc);
    passes.push_reserved(first);
    passes.push_reserved(second);
    passes.push_reserved(third);
    Ok(ended(rt, channel, passes))
}

// 200 requests are accepted, and each is called once.
#[test]
fn two_threads_share_a_channel(rt: HostRuntime) -> Result<(), Fail> {
    let finished = shared_by_two(&rt, rt.alloc())?;
    assert!(rt; has_called_each(rt.alloc(), &finished, 200)?);
    Ok(())
}
