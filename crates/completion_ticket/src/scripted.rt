//! A ready-made body of a callback, which performs its script.

ghost use Rattle.std.specs.Prelude.{◌≡◌, ◌≢◌, ◌++◌, length, None};
ghost use Rattle.chan_types.specs.Gives.{is_for, is_ordered, commanded};
ghost use Rattle.chan_types.specs.Scripts.{deed_of, inside_of};
ghost use Rattle.completion_ticket.specs.Steps.{commands_of_step};

use crate::done::Done;
use crate::hand::Hand;
use chan_types::{Act, Addr, Answer, Need, Orders, Refusal, Script, Spec, Status, Step, When};
use std::marker::Model;

/// Gives the commands of a script, and does nothing else. Its name is the script's tag.
#[derive(Drop)]
pub struct Scripted {
    script: Script,
    called: Option<u64>,
    refusal: Option<Refusal>,
}

impl Model for Scripted {
    ghost use Rattle.std.specs.Coded.{codes};
    ghost use Rattle.chan_types.specs.PlanCode.{moves_code};
    ghost use Rattle.completion_ticket.specs.States.{ScriptedState};

    ghost Value = { ScriptedState };

    ghost coded = { Prim.hlevel (codes, moves_code) };

    ghost view = { λ scripted. record { plan = scripted.script; told = scripted.called; refusal = scripted.refusal } };
}

impl Scripted {
    ghost use Rattle.completion_ticket.specs.States.{ScriptedState};

    /// A body with this script, which was told nothing. It takes no memory.
    pub fn new(script: Script) -> Scripted
        ensures { result ≡ record { plan = script; told = None; refusal = None } }
    {
        Scripted {
            script,
            called: None,
            refusal: None,
        }
    }
}

impl Done for Scripted {
    ghost name = { λ scripted. scripted.plan.tag };

    ghost plan = { λ scripted. scripted.plan };

    ghost told = { λ scripted. scripted.told };

    ghost refusal = { λ scripted. scripted.refusal };

    fn script(&self) -> &Script {
        &self.script
    }

    fn called(&self) -> Option<u64> {
        self.called
    }

    fn done(&mut self, answer: &Answer, hand: &mut Hand) {
        self.called = Some(answer.number);
        let steps = self.script.take_steps();
        for step in steps {
            take_step(step, answer, hand);
        }
    }

    fn refused(&mut self, why: Refusal) {
        self.refusal = Some(why);
    }
}

/// Gives what the step commands, if it is for this answer and its order was given.
fn take_step(step: Step, answer: &Answer, hand: &mut Hand)
    requires { length hand.old.commands ≢ 8 }
    ensures { hand.new
        ≡ record hand.old { commands = hand.old.commands ++ commands_of_step step answer.now hand.old.orders } }
{
    if is_for(step.when, answer.status) && is_ordered(step.need, hand.orders()) {
        perform(step.act, answer.addresses.as_slice(), hand);
    }
}

/// Gives what the act commands, where the answer has these addresses.
fn perform(act: Act, addresses: &[Addr], hand: &mut Hand)
    requires { length hand.old.commands ≢ 8 }
    ensures { hand.new
        ≡ record hand.old {
          commands = hand.old.commands
              ++ commanded (deed_of act) (inside_of act) addresses.now;
        } }
{
    match act {
        Act::Ask(spec, script) => hand.ask(spec, script),
        Act::Reverse(script) => {
            if let [address, ..] = addresses {
                hand.ask(Spec::Reverse { address: *address }, script);
            }
        }
        Act::Cancel => hand.cancel(),
        Act::Destroy => hand.destroy(),
    }
}

/// Whether a step with this condition is for an answer of this status.
fn is_for(when: When, status: Status) -> bool
    ensures { result ≡ is_for when status }
{
    match when {
        When::Always => true,
        When::Good => status.code() == 0,
        When::Bad => status.code() != 0,
    }
}

/// Whether the order that a step needs was given.
fn is_ordered(need: Need, orders: Orders) -> bool
    ensures { result ≡ is_ordered need orders }
{
    match need {
        Need::Nothing => true,
        Need::Follow => orders.follow,
        Need::First => orders.first,
        Need::Quit => orders.quit,
    }
}
