//! Bodies of callbacks: those that the program makes, and others by what they command.

ghost use Rattle.std.specs.Prelude.{◌≡◌, All, IfOk, None};

use chan_types::{Act, Bytes, Need, NoMemory, Script, Spec, Step, Steps, When};
use completion_ticket::Scripted;
use net_addr::Family;
use std::alloc::Global;
use std::test::Fail;

/// The bodies of a run.
#[derive(Clone, Copy)]
pub enum Bodies<'a> {
    /// So many that the program makes.
    Reports(u64),
    /// One for each list of deeds.
    Deeds(&'a [&'a [Deed]]),
    /// So many that command nothing, and behind them one of these deeds.
    Last(u64, &'a [Deed]),
    /// So many that command nothing, and behind them one that asks a request which completes at once: its callback has these
    /// deeds.
    Inside(u64, &'a [Deed]),
}

/// These bodies. None was told anything.
pub fn bodies_for(alloc: Global, bodies: Bodies<'_>) -> Result<Vec<Scripted>, Fail>
    ensures { IfOk result (λ bodies. All (λ body. body.told ≡ None) bodies.items) }
{
    match bodies {
        Bodies::Reports(count) => report_bodies(alloc, count),
        Bodies::Deeds(deeds) => bodies_of(alloc, deeds),
        Bodies::Last(others, deeds) => bodies_before(alloc, others, script_of(alloc, deeds)?),
        Bodies::Inside(others, deeds) => bodies_before(alloc, others, script_around(alloc, deeds)?),
    }
}

/// Those that the program makes: with `--follow` each asks for the names of the first address that was found, with
/// `--first` it cancels what is pending where something was found, and with `--quit` it destroys the channel.
fn report_bodies(alloc: Global, count: u64) -> Result<Vec<Scripted>, Fail>
    ensures { IfOk result (λ bodies. All (λ body. body.told ≡ None) bodies.items) }
{
    let mut bodies = Vec::new(alloc);
    for tag in 0..count {
        bodies.push(Scripted::new(report_script(alloc, tag)?))?;
    }
    Ok(bodies)
}

/// The script of such a body.
pub fn report_script(alloc: Global, tag: u64) -> Result<Script, Fail> {
    let follow_up = Script::blank(alloc, tag.saturating_add(4_294_967_296));
    let mut steps = Steps::new(alloc);
    steps.push(step(When::Good, Need::Follow, Act::Reverse(follow_up)))?;
    steps.push(step(When::Good, Need::First, Act::Cancel))?;
    steps.push(step(When::Always, Need::Quit, Act::Destroy))?;
    Ok(Script::new(tag, steps)?)
}

/// A step.
fn step(when: When, need: Need, act: Act) -> Step {
    Step { when, need, act }
}

/// What a callback commands, whatever it is told: to ask for the A records of `x.test.`, by a callback that commands
/// nothing; to cancel; or to destroy.
#[derive(Clone, Copy)]
pub enum Deed {
    Ask,
    Cancel,
    Destroy,
}

/// A body for each list of deeds.
fn bodies_of(alloc: Global, deeds: &[&[Deed]]) -> Result<Vec<Scripted>, Fail>
    ensures { IfOk result (λ bodies. All (λ body. body.told ≡ None) bodies.items) }
{
    let mut bodies = Vec::new(alloc);
    for own in deeds {
        bodies.push(Scripted::new(script_of(alloc, own)?))?;
    }
    Ok(bodies)
}

/// Bodies that command nothing, so many, and behind them one of this script.
fn bodies_before(alloc: Global, others: u64, script: Script) -> Result<Vec<Scripted>, Fail>
    ensures { IfOk result (λ bodies. All (λ body. body.told ≡ None) bodies.items) }
{
    let mut bodies = Vec::new(alloc);
    for tag in 0..others {
        bodies.push(Scripted::new(Script::blank(alloc, tag)))?;
    }
    bodies.push(Scripted::new(script))?;
    Ok(bodies)
}

/// A script of these deeds.
fn script_of(alloc: Global, deeds: &[Deed]) -> Result<Script, Fail> {
    let mut steps = Steps::new(alloc);
    for deed in deeds {
        steps.push(step(When::Always, Need::Nothing, act_of(alloc, *deed)?))?;
    }
    Ok(Script::new(1, steps)?)
}

/// A script that asks for the addresses of 192.0.2.1, which completes at once, by a callback of these deeds.
fn script_around(alloc: Global, deeds: &[Deed]) -> Result<Script, Fail> {
    let spec = Spec::Address {
        host: Bytes::of(alloc, b"192.0.2.1")?,
        family: Family::V4,
        nosort: false,
    };
    let act = Act::Ask(spec, script_of(alloc, deeds)?);
    let mut steps = Steps::new(alloc);
    steps.push(step(When::Always, Need::Nothing, act))?;
    Ok(Script::new(2, steps)?)
}

/// What a step of this deed does.
fn act_of(alloc: Global, deed: Deed) -> Result<Act, NoMemory> {
    Ok(match deed {
        Deed::Ask => Act::Ask(
            Spec::Query {
                name: Bytes::of(alloc, b"x.test.")?,
                kind: 1,
                class: 1,
            },
            Script::blank(alloc, 3),
        ),
        Deed::Cancel => Act::Cancel,
        Deed::Destroy => Act::Destroy,
    })
}
