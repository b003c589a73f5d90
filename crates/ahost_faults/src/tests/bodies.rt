//! Bodies of callbacks, by what they command.

ghost use Rattle.std.specs.Prelude.{◌≡◌, All, IfOk, None};

use chan_types::{Act, Bytes, Need, NoMemory, Script, Spec, Step, Steps, When};
use completion_ticket::Scripted;
use std::alloc::Global;
use std::test::Fail;

/// What a callback commands.
#[derive(Clone, Copy)]
pub enum Deed {
    /// To ask for the names of the first address that was found, with `--follow`.
    Follow,
    /// To ask for the A records of `x.test.`, whatever it is told.
    Ask,
    /// To destroy the channel, whatever it is told.
    Destroy,
}

/// A body for each list of deeds. None was told anything.
pub fn bodies_of(alloc: Global, deeds: &[&[Deed]]) -> Result<Vec<Scripted>, Fail>
    ensures { IfOk result (λ bodies. All (λ body. body.told ≡ None) bodies.items) }
{
    let mut bodies = Vec::new(alloc);
    for own in deeds {
        bodies.push(Scripted::new(script_of(alloc, own)?))?;
    }
    Ok(bodies)
}

/// A script of these deeds.
fn script_of(alloc: Global, deeds: &[Deed]) -> Result<Script, Fail> {
    let mut steps = Steps::new(alloc);
    for deed in deeds {
        steps.push(step_of(alloc, *deed)?)?;
    }
    Ok(Script::new(1, steps)?)
}

/// The step of a deed. What it asks has a callback that commands nothing.
fn step_of(alloc: Global, deed: Deed) -> Result<Step, NoMemory> {
    let (when, need) = match deed {
        Deed::Follow => (When::Good, Need::Follow),
        Deed::Ask | Deed::Destroy => (When::Always, Need::Nothing),
    };
    Ok(Step {
        when,
        need,
        act: act_of(alloc, deed)?,
    })
}

/// What a step of this deed does.
fn act_of(alloc: Global, deed: Deed) -> Result<Act, NoMemory> {
    Ok(match deed {
        Deed::Follow => Act::Reverse(Script::blank(alloc, 3)),
        Deed::Ask => Act::Ask(
            Spec::Query {
                name: Bytes::of(alloc, b"x.test.")?,
                kind: 1,
                class: 1,
            },
            Script::blank(alloc, 3),
        ),
        Deed::Destroy => Act::Destroy,
    })
}
