//! What callbacks command, said beforehand.

ghost use Rattle.std.specs.Prelude.{◌≡◌, IfOk};
ghost use Rattle.host_lookups.specs.Scripts as meaning;

use chan_types::{Act, Need, Script, Step, Steps, When};
use item_list::NoMemory;
use std::alloc::Global;

/// The script of a callback that follows up: where addresses were found it asks for the names of the first.
pub fn follow_up(alloc: Global) -> Result<Script, NoMemory>
    ensures { IfOk result (λ script. script ≡ meaning.follow_up) }
{
    script_of(alloc, When::Good, Act::Reverse(Script::blank(alloc, 0)))
}

/// The script of a callback that gives up: where nothing was found it cancels all that is pending.
pub fn give_up(alloc: Global) -> Result<Script, NoMemory>
    ensures { IfOk result (λ script. script ≡ meaning.give_up) }
{
    script_of(alloc, When::Bad, Act::Cancel)
}

/// The script of this one step.
fn script_of(alloc: Global, when: When, act: Act) -> Result<Script, NoMemory>
    ensures { IfOk result (λ script. script ≡ meaning.script_of when act) }
{
    let mut steps = Steps::new(alloc);
    steps.push(Step {
        when,
        need: Need::Nothing,
        act,
    })?;
    match Script::new(0, steps) {
        Ok(script) => Ok(script),
        // It never comes to this: one step isn't too many, and with a blank script inside it isn't too deep.
        Err(_) => Err(NoMemory),
    }
}
