//! Scripts as text.

ghost use Rattle.std.specs.Prelude.{◌≡◌, ◌++◌, flat_map, OnOk};
ghost use Rattle.chan_types.specs.Scripts.{deed_of, inside_of, moves_of};
ghost use Rattle.journal_text.specs.Words.{spaced, when_number, need_number};
ghost use Rattle.journal_text.specs.Scripts.{plan_words, deed_words, moves_words};

use crate::atom_printing::{put_number, put_word};
use crate::request_printing::put_spec;
use chan_types::{Act, Need, Script, Step, When};
use item_list::NoMemory;
use std::alloc::Global;

/// The number of the answers for which a step is taken.
fn when_of(when: When) -> u64
    ensures { result ≡ when_number when }
{
    match when {
        When::Always => 0,
        When::Good => 1,
        When::Bad => 2,
    }
}

/// The number of the order that a step needs.
fn need_of(need: Need) -> u64
    ensures { result ≡ need_number need }
{
    match need {
        Need::Nothing => 0,
        Need::Follow => 1,
        Need::First => 2,
        Need::Quit => 3,
    }
}

/// Prints a script, each word behind a blank.
#[cycle(printing)]
#[tactic(auto, using(crate::proofs::WordTextLemmas::spaced_two))]
pub(crate) fn put_script(alloc: Global, text: &mut Vec<u8>, script: &Script) -> Result<(), NoMemory>
    ensures { OnOk result (text.new.items ≡ text.old.items ++ flat_map spaced (plan_words script.now)) }
{
    put_word(text, b"(")?;
    put_number(text, script.tag())?;
    put_steps(alloc, text, script.steps())?;
    put_word(text, b")")
}

/// Prints steps, each word behind a blank.
#[cycle(printing)]
#[tactic(auto, using(crate::proofs::WordTextLemmas::spaced_two))]
fn put_steps(alloc: Global, text: &mut Vec<u8>, steps: &[Step]) -> Result<(), NoMemory>
    ensures { OnOk result (text.new.items
        ≡ text.old.items ++ flat_map spaced (moves_words (moves_of steps.now))) }
{
    let [step, rest @ ..] = steps else {
        return Ok(());
    };
    put_number(text, when_of(step.when))?;
    put_number(text, need_of(step.need))?;
    put_act(alloc, text, &step.act)?;
    put_steps(alloc, text, rest)
}

/// Prints what a step does, each word behind a blank.
#[cycle(printing)]
#[tactic(auto, using(crate::proofs::WordTextLemmas::spaced_two))]
fn put_act(alloc: Global, text: &mut Vec<u8>, act: &Act) -> Result<(), NoMemory>
    ensures { OnOk result (text.new.items
        ≡ text.old.items ++ flat_map spaced (deed_words (deed_of act.now) (moves_words (inside_of act.now)))) }
{
    match act {
        Act::Ask(spec, script) => {
            put_word(text, b"ask")?;
            put_spec(alloc, text, spec)?;
            put_script(alloc, text, script)
        }
        Act::Reverse(script) => {
            put_word(text, b"rev")?;
            put_script(alloc, text, script)
        }
        Act::Cancel => put_word(text, b"cancel"),
        Act::Destroy => put_word(text, b"destroy"),
    }
}
