//! The passes of a channel as it is made, and one request through a pass, call by call.

ghost use Rattle.std.specs.Prelude.{◌≡◌, ◌<◌, ◌≤◌};
ghost use Rattle.shared_channel.specs.Staying.{StaysSettled};

use super::FOLLOW;
use super::calls::asked_query;
use super::ending::ended;
use super::replies::{ADDRESS_REPLY, replied_address};
use super::telling::{has_calls, has_journal};
use chan_types::NoMemory;
use channel_model::Desk;
use completion_ticket::Scripted;
use shared_channel::{Channel, Finished, Pass, Place, last_pass, plain_channel, spend};
use std::alloc::Global;
use std::sync::Wait;
use std::test::*;

/// The numbers of these passes, and how many requests were lost through all of them.
fn numbers_of(alloc: Global, passes: &[Pass<Scripted>]) -> Result<(Vec<u64>, u64), NoMemory> {
    let mut numbers = Vec::new(alloc);
    let mut lost: u64 = 0;
    for pass in passes {
        numbers.push(pass.number())?;
        lost = lost.wrapping_add(pass.lost());
    }
    Ok((numbers, lost))
}

/// A channel of so many passes that is finished as it is made: their numbers, how many requests they lost, and what is
/// left of it.
fn finished_at_once<R: Wait>(
    rt: &R,
    alloc: Global,
    seats: u64,
) -> Result<((Vec<u64>, u64), Finished), NoMemory>
    requires { (0 < seats) × (seats ≤ 64) }
{
    let (channel, passes) = plain_channel(alloc, seats)?;
    let numbers = numbers_of(alloc, passes.as_slice());
    let finished = ended(rt, channel, passes);
    Ok((numbers?, finished))
}

/// Takes the first ready request, and tells its callback. The number is the callback's, or 0 where none is ready.
fn taken_and_spent<R: Wait>(place: &mut Place<'_, Scripted, R>) -> u64
    ensures { StaysSettled place.old place.new }
{
    let Some(ticket) = place.take() else {
        return 0;
    };
    spend(place, ticket, FOLLOW).number()
}

/// Through a pass a request is asked and gets its reply, and its ticket is taken and spent: the number of the place, of
/// the request and of its callback, and how many requests were lost.
#[tactic(auto, using(shared_channel::proofs::Theorems::stays_more))]
fn used<R: Wait>(
    rt: &R,
    channel: &Channel<Scripted>,
    pass: Pass<Scripted>,
    alloc: Global,
) -> (Pass<Scripted>, [u64; 4])
    requires { pass.lock ≡ channel.now }
    ensures { StaysSettled pass result.0 }
{
    let mut place = channel.place(rt, pass);
    let number = asked_query(&mut place, alloc);
    replied_address(&mut place);
    let called = taken_and_spent(&mut place);
    let told = [place.number(), number, called, place.lost()];
    (place.leave(), told)
}

/// What a request through the one pass of a channel comes to, and what is left of the channel.
fn used_alone<R: Wait>(rt: &R, alloc: Global) -> Result<([u64; 4], Finished), NoMemory> {
    let (channel, mut passes) = plain_channel(alloc, 1)?;
    let pass = last_pass(&channel, &mut passes);
    let (pass, told) = used(rt, &channel, pass, alloc);
    passes.push_reserved(pass);
    Ok((told, ended(rt, channel, passes)))
}

/// Whether a channel of so many passes numbers them from 0, and nothing happens in it but its end.
fn has_its_passes<R: Wait>(rt: &R, alloc: Global, seats: u64) -> Result<bool, Fail>
    requires { (0 < seats) × (seats ≤ 64) }
{
    let ((numbers, lost), finished) = finished_at_once(rt, alloc, seats)?;
    let numbered = numbers.iter().copied().eq(0..seats);
    let ended = has_journal(alloc, &finished, "destroy\n")?;
    Ok(numbered && ended && lost == 0 && finished.accepted == 0)
}

#[test]
fn a_channel_has_its_passes(rt: HostRuntime) -> Result<(), Fail> {
    for seats in [1, 3, 64] {
        assert!(rt; has_its_passes(&rt, rt.alloc(), seats)?, "{seats} passes");
    }
    Ok(())
}

/// Whether each callback was told the reply with identifier 9.
fn was_told(finished: &Finished) -> bool {
    finished.calls.iter().all(|answer| {
        let message = answer.message.as_slice();
        message.get(..2) == Some([0, 9].as_slice())
            && message.get(2..) == ADDRESS_REPLY.as_slice().get(2..)
    })
}

#[test]
fn a_request_is_called_once(rt: HostRuntime) -> Result<(), Fail> {
    let (told, finished) = used_alone(&rt, rt.alloc())?;
    assert!(rt; told == [0, 1, 1, 0]);
    assert!(rt; finished.accepted == 1 && was_told(&finished));
    assert!(rt; has_calls(rt.alloc(), &finished, &[(1, 0)])?);
    Ok(())
}
