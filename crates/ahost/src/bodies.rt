//! The bodies of ahost's callbacks, and what they command.

ghost use Rattle.std.specs.Prelude.{◌≡◌, All, IfOk, None, length};

use chan_types::{Act, Need, Script, Step, Steps, When};
use completion_ticket::Scripted;
use std::alloc::{AllocError, Global};

/// The tag of a follow-up's script is so much greater than that of the body that asks it.
const FOLLOW_UP: u64 = 4_294_967_296;

/// So many bodies, each with a script of its own tag.
pub fn report_bodies(alloc: Global, count: usize) -> Result<Vec<Scripted>, AllocError>
    ensures fresh { IfOk result (λ bodies. All (λ body. body.told ≡ None) bodies.items) }
    ensures count { IfOk result (λ bodies. length bodies.items ≡ count) }
{
    let mut bodies = Vec::new(alloc);
    for tag in 0..count {
        bodies.push(Scripted::new(report_script(alloc, tag as u64)?))?;
    }
    Ok(bodies)
}

/// The script of a body: where something was found it asks for the names of the first address, if it is told to follow, and
/// cancels what is pending, if the first is enough; in any case it destroys the channel, if it is told to quit.
fn report_script(alloc: Global, tag: u64) -> Result<Script, AllocError> {
    let follow_up = Script::blank(alloc, tag.saturating_add(FOLLOW_UP));
    let mut steps = Steps::new(alloc);
    add(
        &mut steps,
        When::Good,
        Need::Follow,
        Act::Reverse(follow_up),
    )?;
    add(&mut steps, When::Good, Need::First, Act::Cancel)?;
    add(&mut steps, When::Always, Need::Quit, Act::Destroy)?;
    match Script::new(tag, steps) {
        Ok(script) => Ok(script),
        // Three steps, of which one asks with a blank script, are no more than eight, and nest no deeper than two.
        Err(_) => Ok(Script::blank(alloc, tag)),
    }
}

/// Adds a step.
fn add(steps: &mut Steps, when: When, need: Need, act: Act) -> Result<(), AllocError> {
    match steps.push(Step { when, need, act }) {
        Ok(()) => Ok(()),
        Err(_) => Err(AllocError),
    }
}
