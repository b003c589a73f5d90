//! Two threads at one channel, each of which asks and replies under holds of the lock, and delivers several at once.

ghost use Rattle.std.specs.Prelude.{◌≡◌};
ghost use Rattle.shared_channel.specs.Staying.{StaysSettled};

use super::ending::ended;
use super::holds::{asked_at_once, delivered_some};
use super::telling::has_called_each;
use chan_types::{Entry, NoMemory, What};
use completion_ticket::Scripted;
use shared_channel::{Channel, Finished, Pass, Place, last_pass, plain_channel};
use std::alloc::Global;
use std::sync::Wait;
use std::test::*;
use std::thread::{Threads, join};

/// Asks ten requests and replies to ten under one hold, and then delivers up to ten.
#[tactic(auto, using(shared_channel::proofs::Theorems::stays_more))]
fn round<'c, R: Wait>(place: Place<'c, Scripted, R>, alloc: Global) -> Place<'c, Scripted, R>
    ensures { StaysSettled place.entry result }
{
    let mut place = asked_at_once(place, alloc, 10);
    delivered_some(&mut place, alloc, 10);
    place
}

/// A hundred rounds.
#[tactic(auto, using(shared_channel::proofs::Theorems::stays_more, shared_channel::proofs::Theorems::stays_none))]
fn rounds<R: Wait>(
    rt: &R,
    channel: &Channel<Scripted>,
    pass: Pass<Scripted>,
    alloc: Global,
) -> Pass<Scripted>
    requires { pass.lock ≡ channel.now }
    ensures { StaysSettled pass result }
{
    let mut place = channel.place(rt, pass);
    for _ in 0..100u64 {
        place = round(place, alloc);
    }
    place.leave()
}

/// The rounds of both threads.
fn rounds_of_both<R: Threads + Wait + Sync>(
    rt: &R,
    channel: &Channel<Scripted>,
    left: Pass<Scripted>,
    right: Pass<Scripted>,
    alloc: Global,
) -> (Pass<Scripted>, Pass<Scripted>)
    requires left { left.lock ≡ channel.now }
    requires right { right.lock ≡ channel.now }
    ensures left { StaysSettled left result.0 }
    ensures right { StaysSettled right result.1 }
{
    join(
        rt,
        move ||
            requires { left.lock ≡ channel.now }
            ensures { StaysSettled left result }
        { rounds(rt, channel, left, alloc) },
        move ||
            requires { right.lock ≡ channel.now }
            ensures { StaysSettled right result }
        { rounds(rt, channel, right, alloc) },
    )
}

/// What is left of a channel behind both threads.
fn shared_by_two<R: Threads + Wait + Sync>(rt: &R, alloc: Global) -> Result<Finished, NoMemory> {
    let (channel, mut passes) = plain_channel(alloc, 2)?;
    let right = last_pass(&channel, &mut passes);
    let left = last_pass(&channel, &mut passes);
    let (left, right) = rounds_of_both(rt, &channel, left, right, alloc);
    passes.push_reserved(left);
    passes.push_reserved(right);
    Ok(ended(rt, channel, passes))
}

/// An accept or a take, or another entry.
fn mark_of(what: &What) -> char {
    match what {
        What::Accept { .. } => 'a',
        What::Take { .. } => 't',
        _ => '-',
    }
}

/// Whether each accept and each take stands among ten of its kind and its seat, one behind the other.
fn stand_in_tens(entries: &[Entry]) -> bool {
    let mut first: (char, u64) = ('-', 0);
    let mut left: u64 = 0;
    for entry in entries {
        let mark = (mark_of(&entry.what), entry.seat);
        match (mark.0, left) {
            ('-', 0) => {}
            (_, 0) => {
                first = mark;
                left = 9;
            }
            _ if mark == first => left = left.saturating_sub(1),
            _ => return false,
        }
    }
    left == 0
}

// 2,000 requests are accepted, and each is called once. Whoever delivers has made ten ready before, so each delivery takes
// ten. No contract says that nobody comes between the calls of a hold, or between those takes.
#[test]
fn two_threads_hold_the_lock(rt: HostRuntime) -> Result<(), Fail> {
    let finished = shared_by_two(&rt, rt.alloc())?;
    assert!(rt; has_called_each(rt.alloc(), &finished, 2000)?);
    assert!(rt; stand_in_tens(finished.journal.entries.as_slice()));
    Ok(())
}
