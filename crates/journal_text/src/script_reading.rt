//! Scripts out of their words.

ghost use Rattle.std.specs.Prelude.{◌≡◌, ◌≤◌, ◌++◌, ◌∷◌, codes, IfOk};
ghost use Rattle.chan_types.specs.Plans.{count, depth};
ghost use Rattle.chan_types.specs.Scripts.{deed_of, inside_of, moves_of};
ghost use Rattle.journal_text.specs.Scripts.{plan_words, moves_words};
ghost use Rattle.journal_text.specs.Steps.{act_words, step_words, FitsAct, FitsStep};
ghost use Rattle.journal_text.specs.Fits.{FitsPlan, FitsMoves};
ghost use Rattle.journal_text.specs.Reads.{Gives, Is, Took};
ghost use Rattle.journal_text.specs.ScriptReading as meaning;

use crate::atom_reading::{read_need, read_number, read_when};
use crate::fault::LineFault;
use crate::request_reading::read_spec;
use crate::word_reading::Words;
use chan_types::{Act, BadScript, Script, Step, Steps};
use std::alloc::Global;

/// How many times a step is tried: a script has eight at most, and behind them its end.
const STEPS_TRIED: u64 = 9;

/// The script of a tag and steps, where they make one.
#[tactic(auto, using(crate::proofs::StepLemmas::made_many, crate::proofs::StepLemmas::made_deep, crate::proofs::StepLemmas::made_one))]
fn script_of(tag: u64, steps: Vec<Step>) -> Result<Script, LineFault>
    ensures value { Is result (meaning.made_plan tag (moves_of steps.items)) }
    ensures made { IfOk result (λ script. (script ≡ record { tag = tag; moves = moves_of steps.items })
        × (count (moves_of steps.items) ≤ 8) × (depth (moves_of steps.items) ≤ 4)) }
{
    match Script::new(tag, Steps::from_vec(steps)) {
        Ok(script) => Ok(script),
        Err(BadScript::TooManySteps) => Err(LineFault::Bad),
        Err(BadScript::TooDeep) => Err(LineFault::Bad),
    }
}

/// A script whose scripts nest at most so deep, itself included.
#[cycle(reading)]
#[tactic(auto, using(crate::proofs::StepLemmas::script_step, crate::proofs::StepLemmas::no_script), unfolding(crate::specs::ScriptReading::body_from))]
pub(crate) fn read_script(
    alloc: Global,
    words: &mut Words<'_>,
    deep: u64,
) -> Result<Script, LineFault>
    ensures value { Gives (λ script. script) result words.new (meaning.script_from deep words.old) }
    ensures took { Took plan_words FitsPlan words.old result words.new }
{
    if deep == 0 {
        return Err(LineFault::Bad);
    }
    if !words.take_if(b"(") {
        return Err(LineFault::Bad);
    }
    let tag = read_number(words, u64::MAX)?;
    let steps = read_steps(alloc, words, deep - 1, STEPS_TRIED)?;
    script_of(tag, steps)
}

/// Steps, fewer than so many, and the end of their script. Scripts inside nest at most so deep.
#[cycle(reading)]
#[tactic(auto, using(crate::proofs::StepLemmas::moves_step, crate::proofs::StepLemmas::no_steps))]
fn read_steps(
    alloc: Global,
    words: &mut Words<'_>,
    deep: u64,
    most: u64,
) -> Result<Vec<Step>, LineFault>
    ensures value { Gives (λ steps. moves_of steps.items) result words.new
        (meaning.moves_from (meaning.script_from deep) most words.old) }
    ensures took { IfOk result (λ steps. (words.old ≡ moves_words (moves_of steps.items) ++ codes ")" ∷ words.new)
        × FitsMoves (moves_of steps.items)) }
{
    if most == 0 {
        return Err(LineFault::Bad);
    }
    if words.take_if(b")") {
        return Ok(Vec::new(alloc));
    }
    let step = read_step(alloc, words, deep)?;
    let mut steps = read_steps(alloc, words, deep, most - 1)?;
    steps.insert(0, step)?;
    Ok(steps)
}

/// A step. Scripts inside nest at most so deep.
#[cycle(reading)]
#[tactic(auto, unfolding(crate::specs::ScriptReading::step_from))]
fn read_step(alloc: Global, words: &mut Words<'_>, deep: u64) -> Result<Step, LineFault>
    ensures value { Gives (λ step. (step.when, step.need, deed_of step.act, inside_of step.act)) result words.new
        (meaning.step_from (meaning.script_from deep) words.old) }
    ensures took { Took step_words FitsStep words.old result words.new }
{
    let when = read_when(words)?;
    let need = read_need(words)?;
    let act = read_act(alloc, words, deep)?;
    Ok(Step { when, need, act })
}

/// What a step does. Scripts inside nest at most so deep.
#[cycle(reading)]
#[tactic(auto, unfolding(crate::specs::ScriptReading::act_from, crate::specs::ScriptReading::ask_from, crate::specs::ScriptReading::rev_from))]
fn read_act(alloc: Global, words: &mut Words<'_>, deep: u64) -> Result<Act, LineFault>
    ensures value { Gives (λ act. (deed_of act, inside_of act)) result words.new
        (meaning.act_from (meaning.script_from deep) words.old) }
    ensures took { Took act_words FitsAct words.old result words.new }
{
    let kind = words.next_word()?;
    if kind == b"ask".as_slice() {
        let spec = read_spec(alloc, words)?;
        return Ok(Act::Ask(spec, read_script(alloc, words, deep)?));
    }
    if kind == b"rev".as_slice() {
        return Ok(Act::Reverse(read_script(alloc, words, deep)?));
    }
    if kind == b"cancel".as_slice() {
        return Ok(Act::Cancel);
    }
    if kind == b"destroy".as_slice() {
        return Ok(Act::Destroy);
    }
    Err(LineFault::Bad)
}
