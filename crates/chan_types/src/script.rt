//! Scripts: which commands a callback gives, said beforehand as plain data. Eight steps at most, nested at most four deep.

ghost use Rattle.std.specs.Prelude.{◌≡◌, ◌+◌, ◌≤◌, ◌<◌, ◌↔◌, IfOk, length, max};
ghost use Rattle.chan_types.specs.Plans.{blank, count, depth, reach, stop};
ghost use Rattle.chan_types.specs.Scripts.{moves_of, deed_of, inside_of};

use crate::orders::{Need, When};
use crate::spec::Spec;
use dns_message::{ItemList, NoMemory};
use std::alloc::Global;
use std::marker::Model;
use std::mem;

/// What a step does.
#[cycle(script)]
#[derive(Drop)]
pub enum Act {
    /// Ask this request, with a callback of this script.
    Ask(Spec, Script),
    /// Ask for the names of the answer's first address, with a callback of this script; nothing where there is none.
    Reverse(Script),
    /// Cancel every pending request.
    Cancel,
    /// Destroy the channel.
    Destroy,
}

/// A step of a script: what it does, and for which answers and orders.
#[cycle(script)]
#[derive(Drop)]
pub struct Step {
    pub when: When,
    pub need: Need,
    pub act: Act,
}

/// A tag and at most eight steps; the scripts inside them nest at most four deep, this one included.
#[cycle(script)]
#[derive(Drop)]
pub struct Script {
    tag: u64,
    deep: u64,
    steps: Vec<Step>,
}

/// A list of steps.
pub type Steps = ItemList<Step>;

/// Why steps make no script.
#[derive(Clone, Copy, Debug, PartialEq, Eq)]
pub enum BadScript {
    /// There are more than eight.
    TooManySteps,
    /// With the scripts inside them they nest more than four deep.
    TooDeep,
}

impl Model for Script {
    ghost use Rattle.chan_types.specs.Plans.{Plan};
    ghost use Rattle.chan_types.specs.PlanCode.{plan_code};

    ghost Value = { Plan };

    ghost coded = { plan_code };

    ghost use Rattle.std.specs.Prelude.{◌≤◌, ◌≡◌};
    ghost use Rattle.chan_types.specs.Plans.{count, depth};
    ghost use Rattle.chan_types.specs.PlanCode.{plan_size};
    ghost use Rattle.chan_types.specs.Scripts.{moves_of};

    ghost view = { λ a. record { tag = a.tag; moves = moves_of a.steps.items } };

    ghost invariant = { λ a. (count (moves_of a.steps.items) ≤ 8)
        × (depth (moves_of a.steps.items) ≤ 4) × (a.deep ≡ depth (moves_of a.steps.items)) };

    ghost size = { plan_size };

    ghost use Rattle.chan_types.specs.Falls.{deep_steps};

    ghost size_decreases = { λ a h. deep_steps a.steps.items };
}

impl Script {
    /// A script with this tag and these steps. More than eight steps are refused, and then steps that nest more than
    /// four deep; the refused steps are dropped.
    #[tactic(auto, using(crate::proofs::MovesLemmas::count_moves))]
    pub fn new(tag: u64, steps: Steps) -> Result<Script, BadScript>
        ensures made { IfOk result (λ script. script ≡ record { tag = tag; moves = moves_of steps }) }
        ensures many { (result ≡ Err BadScript.TooManySteps) ↔ (8 < length steps) }
        ensures deep { (result ≡ Err BadScript.TooDeep) ↔ ((length steps ≤ 8) × (4 < depth (moves_of steps))) }
    {
        if steps.len() > MOST_STEPS {
            return Err(BadScript::TooManySteps);
        }
        let deep = depth_of(steps.as_slice());
        if deep > MOST_DEPTH {
            return Err(BadScript::TooDeep);
        }
        Ok(Script {
            tag,
            deep,
            steps: steps.into_vec(),
        })
    }

    /// The script without a step. It takes no memory.
    pub fn blank(alloc: Global, tag: u64) -> Script
        ensures { result ≡ blank tag }
    {
        Script {
            tag,
            deep: 1,
            steps: Vec::new(alloc),
        }
    }

    /// The number by which its owner knows it.
    pub fn tag(&self) -> u64
        ensures { result ≡ self.now.tag }
    {
        self.tag
    }

    /// How deep it nests, itself included: at most four.
    pub fn depth(&self) -> u64
        ensures depth { result ≡ depth self.now.moves }
        ensures few { depth self.now.moves ≤ 4 }
    {
        self.deep
    }

    /// The steps, in order: at most eight.
    #[tactic(auto, using(crate::proofs::MovesLemmas::count_moves))]
    pub fn steps(&self) -> &[Step]
        ensures steps { moves_of result.now ≡ self.now.moves }
        ensures few { length result.now ≤ 8 }
    {
        self.steps.as_slice()
    }

    /// The steps, in order: at most eight. It takes no memory.
    #[tactic(auto, using(crate::proofs::MovesLemmas::count_moves))]
    pub fn into_steps(self) -> Vec<Step>
        ensures steps { moves_of result.items ≡ self.moves }
        ensures few { length result.items ≤ 8 }
    {
        let Script {
            tag: _,
            deep: _,
            steps,
        } = self;
        steps
    }

    /// Hands out the steps, in order, and leaves the script without any. It takes no memory.
    #[tactic(auto, using(crate::proofs::MovesLemmas::count_moves))]
    pub fn take_steps(&mut self) -> Vec<Step>
        ensures steps { moves_of result.items ≡ self.old.moves }
        ensures few { length result.items ≤ 8 }
        ensures left { self.new ≡ blank self.old.tag }
    {
        let alloc = *self.steps.allocator();
        self.deep = 1;
        mem::replace(&mut self.steps, Vec::new(alloc))
    }

    /// An equal script.
    #[cycle(copy)]
    pub fn copy(&self, alloc: Global) -> Result<Script, NoMemory>
        ensures { IfOk result (λ script. script ≡ self.now) }
    {
        Ok(Script {
            tag: self.tag,
            deep: self.deep,
            steps: copy_steps(alloc, self.steps.as_slice())?,
        })
    }
}

/// The most steps of a script.
const MOST_STEPS: usize = 8;

/// How deep scripts may nest.
const MOST_DEPTH: u64 = 4;

fn larger(a: u64, b: u64) -> u64
    ensures { result ≡ max a b }
{
    if a < b { b } else { a }
}

fn reach_of(act: &Act) -> u64
    ensures reach { result ≡ reach (deed_of act.now) (depth (inside_of act.now)) }
    ensures small { result ≤ 5 }
{
    match act {
        Act::Ask(_, script) => script.deep + 1,
        Act::Reverse(script) => script.deep + 1,
        Act::Cancel => 1,
        Act::Destroy => 1,
    }
}

fn depth_of(steps: &[Step]) -> u64
    ensures { result ≡ depth (moves_of steps.now) }
{
    let mut deep = 1;
    for step in steps {
        deep = larger(deep, reach_of(&step.act));
    }
    deep
}

#[cycle(copy)]
fn copy_act(alloc: Global, act: &Act) -> Result<Act, NoMemory>
    ensures { IfOk result (λ copied. copied ≡ act.now) }
{
    Ok(match act {
        Act::Ask(spec, script) => Act::Ask(spec.copy(alloc)?, script.copy(alloc)?),
        Act::Reverse(script) => Act::Reverse(script.copy(alloc)?),
        Act::Cancel => Act::Cancel,
        Act::Destroy => Act::Destroy,
    })
}

#[cycle(copy)]
fn copy_steps(alloc: Global, steps: &[Step]) -> Result<Vec<Step>, NoMemory>
    ensures { IfOk result (λ copied. copied.items ≡ steps.now) }
{
    let mut copied = Vec::with_capacity(alloc, steps.len())?;
    for step in steps {
        copied.push(Step {
            when: step.when,
            need: step.need,
            act: copy_act(alloc, &step.act)?,
        })?;
    }
    Ok(copied)
}
