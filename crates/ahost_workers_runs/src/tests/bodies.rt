//! Bodies of callbacks, by what they command.

ghost use Rattle.std.specs.Prelude.{◌≡◌, All, IfOk, None};

use chan_types::{Act, Bytes, Need, NoMemory, Script, Spec, Step, Steps, When};
use completion_ticket::Scripted;
use net_addr::Family;
use std::alloc::Global;
use std::test::Fail;

/// What a callback commands: with `--follow` to ask for the names of the first address that was found; and whatever it is
/// told, to ask for the A records of `x.test.`, by a callback that commands nothing, to cancel, or to destroy.
#[derive(Clone, Copy)]
pub enum Deed {
    Follow,
    Ask,
    Cancel,
    Destroy,
}

/// The bodies of a run: so many that command nothing, and behind them one for each list of deeds; with `inside` each of these
/// asks a request that completes at once, whose callback has the deeds.
#[derive(Clone, Copy)]
pub struct Bodies<'a> {
    pub blank: u64,
    pub deeds: &'a [&'a [Deed]],
    pub inside: bool,
}

/// These bodies. None was told anything.
pub fn bodies_for(alloc: Global, bodies: &Bodies<'_>) -> Result<Vec<Scripted>, Fail>
    ensures fresh { IfOk result (λ bodies. All (λ body. body.told ≡ None) bodies.items) }
{
    let mut made = blank_bodies(alloc, bodies.blank)?;
    for deeds in bodies.deeds {
        made.push(Scripted::new(script_for(alloc, deeds, bodies.inside)?))?;
    }
    Ok(made)
}

/// So many that command nothing.
pub fn blank_bodies(alloc: Global, count: u64) -> Result<Vec<Scripted>, NoMemory>
    ensures fresh { IfOk result (λ bodies. All (λ body. body.told ≡ None) bodies.items) }
{
    let mut made = Vec::new(alloc);
    for tag in 0..count {
        made.push(Scripted::new(Script::blank(alloc, tag)))?;
    }
    Ok(made)
}

/// A script of these deeds, or of one that asks with them.
fn script_for(alloc: Global, deeds: &[Deed], inside: bool) -> Result<Script, Fail> {
    let script = script_of(alloc, deeds)?;
    if !inside {
        return Ok(script);
    }
    let spec = Spec::Address {
        host: Bytes::of(alloc, b"192.0.2.1")?,
        family: Family::V4,
        nosort: false,
    };
    let mut steps = Steps::new(alloc);
    steps.push(always(Act::Ask(spec, script)))?;
    Ok(Script::new(2, steps)?)
}

/// A script of these deeds.
fn script_of(alloc: Global, deeds: &[Deed]) -> Result<Script, Fail> {
    let mut steps = Steps::new(alloc);
    for deed in deeds {
        steps.push(step_of(alloc, *deed)?)?;
    }
    Ok(Script::new(1, steps)?)
}

fn step(when: When, need: Need, act: Act) -> Step {
    Step { when, need, act }
}

fn always(act: Act) -> Step {
    step(When::Always, Need::Nothing, act)
}

/// The step of this deed.
fn step_of(alloc: Global, deed: Deed) -> Result<Step, NoMemory> {
    Ok(match deed {
        Deed::Follow => step(
            When::Good,
            Need::Follow,
            Act::Reverse(Script::blank(alloc, 4)),
        ),
        Deed::Ask => always(Act::Ask(
            Spec::Query {
                name: Bytes::of(alloc, b"x.test.")?,
                kind: 1,
                class: 1,
            },
            Script::blank(alloc, 3),
        )),
        Deed::Cancel => always(Act::Cancel),
        Deed::Destroy => always(Act::Destroy),
    })
}
