//! A channel whose journal only proofs see.

ghost use Rattle.std.specs.Prelude.{◌≡◌, IfOk, vec_len};
ghost use Rattle.shared_channel.specs.Making.{IsNewChannel, plain_setting};
ghost use Rattle.shared_channel.specs.Staying.{AreAt, StaysSettled};

use super::calls::delivered;
use super::ending::ended;
use super::example::ask_at;
use chan_types::{Bytes, NoMemory, Script, Spec};
use channel_journal::UntoldJournal;
use completion_ticket::{Callback, Scripted};
use hosts_file::Hosts;
use resolv_options::Options;
use shared_channel::{Channel, Finished, Pass, last_pass};
use std::alloc::Global;
use std::sync::Wait;
use std::test::*;

/// A channel with the default options, whose journal isn't kept, and its one pass.
#[tactic(auto, using(shared_channel::proofs::Theorems::all_at))]
fn untold_channel(
    alloc: Global,
) -> Result<
    (
        Channel<Scripted, UntoldJournal>,
        Vec<Pass<Scripted, UntoldJournal>>,
    ),
    NoMemory,
>
    ensures new { IfOk result (λ made. IsNewChannel made.0 plain_setting 1 made.1.items) }
    ensures at { IfOk result (λ made. AreAt made.0 made.1.items) }
    ensures len { IfOk result (λ made. vec_len made.1 ≡ 1) }
{
    let options = Options::plain(alloc)?;
    let (channel, passes) = Channel::make(alloc, options, Hosts::empty(alloc), 1)?;
    Ok((channel, passes))
}

/// Through a pass a name that isn't one is asked for, which completes at once, and its callback is called: its number.
#[tactic(auto, using(shared_channel::proofs::Theorems::stays_more))]
fn used<R: Wait>(
    rt: &R,
    channel: &Channel<Scripted, UntoldJournal>,
    pass: Pass<Scripted, UntoldJournal>,
    spec: Spec,
    alloc: Global,
) -> (Pass<Scripted, UntoldJournal>, u64)
    requires { pass.lock ≡ channel.now }
    ensures { StaysSettled pass result.0 }
{
    let mut place = channel.place(rt, pass);
    ask_at(
        &mut place,
        spec,
        Callback::scripted(Script::blank(alloc, 7)),
    );
    let called = delivered(&mut place);
    (place.leave(), called)
}

/// What a request through the one pass of a channel comes to, and what is left of the channel.
fn used_alone<R: Wait>(rt: &R, alloc: Global) -> Result<(u64, Finished<UntoldJournal>), NoMemory> {
    let spec = Spec::Query {
        name: Bytes::of(alloc, b"a..b")?,
        kind: 1,
        class: 1,
    };
    let (channel, mut passes) = untold_channel(alloc)?;
    let pass = last_pass(&channel, &mut passes);
    let (pass, told) = used(rt, &channel, pass, spec, alloc);
    passes.push_reserved(pass);
    Ok((told, ended(rt, channel, passes)))
}

#[test]
fn a_request_is_called_without_a_journal(rt: HostRuntime) -> Result<(), Fail> {
    let (told, finished) = used_alone(&rt, rt.alloc())?;
    assert!(rt; told == 1 && finished.accepted == 1 && finished.lost == 0);
    let mut codes = Vec::new(rt.alloc());
    for answer in finished.calls.iter() {
        codes.push((answer.number, answer.status.code()))?;
    }
    // A text with an empty label is no name (EBADNAME).
    assert!(rt; codes.as_slice() == [(1, 8)].as_slice());
    Ok(())
}
