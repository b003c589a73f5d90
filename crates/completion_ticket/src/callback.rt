//! Callbacks: what a request is accepted with, and what its answer is told to.

ghost use Rattle.std.specs.Prelude.{◌≡◌, [], true, None, Some, IfSome, is_some};
ghost use Rattle.chan_types.specs.Gives.{gives};

use crate::body::Body;
use crate::called::Called;
use crate::done::Done;
use crate::hand::Hand;
use crate::scripted::Scripted;
use chan_types::{Answer, Refusal, Script, Token};
use std::marker::Model;

/// Something that wants to be told its request's answer, and hasn't been told any. Contracts see it as its script, whether
/// the caller gave it a body, as a box, or a script alone, and its name: who it is.
#[derive(Drop)]
pub struct Callback<B: Done + Drop> {
    body: Body<B>,
}

impl<B: Done + Drop> Model for Callback<B> {
    ghost use Rattle.std.specs.Prelude.{◌≡◌, None};
    ghost use Rattle.std.specs.Coded.{codes};
    ghost use Rattle.chan_types.specs.PlanCode.{moves_code};
    ghost use Rattle.completion_ticket.specs.States.{CallbackState};
    ghost use Rattle.completion_ticket.specs.Bodies.{state_of, told_of};

    ghost Value = { CallbackState };

    ghost coded = { Prim.hlevel (codes, moves_code) };

    ghost view = { λ callback. state_of B.plan B.name callback.body };

    ghost invariant = { λ callback. told_of B.told callback.body ≡ None };
}

impl<B: Done + Drop> Callback<B> {
    ghost use Rattle.completion_ticket.specs.States.{CallbackState, called_with, script_alone};

    /// The callback with this body, which was told nothing. It takes no memory.
    pub fn of(body: B) -> Callback<B>
        requires { B.told body ≡ None }
        ensures { result ≡ record { plan = B.plan body; boxed = true; name = B.name body } }
    {
        Callback {
            body: Body::Boxed(body),
        }
    }

    /// The callback with this script alone. It takes no memory.
    pub fn scripted(script: Script) -> Callback<B>
        ensures { result ≡ script_alone script }
    {
        Callback {
            body: Body::Plain(Scripted::new(script)),
        }
    }

    /// Tells it the answer. It puts the commands of its script into the hand, which is empty.
    pub fn call(self, answer: &Answer, hand: &mut Hand) -> Called<B>
        requires { hand.old.commands ≡ [] }
        ensures gives { hand.new ≡ record hand.old { commands = gives self.plan answer.now hand.old.orders } }
        ensures called { result ≡ called_with answer.now.number self }
    {
        let Callback { mut body } = self;
        match &mut body {
            Body::Boxed(boxed) => boxed.done(answer, hand),
            Body::Plain(scripted) => scripted.done(answer, hand),
        }
        Called::of(answer.number, body)
    }

    /// Tells it that its request was refused, and why. Answers the body that the caller gave, if he gave one: it is the same
    /// one, it knows the refusal, and was told no answer.
    pub fn refuse(self, why: Refusal) -> Option<B>
        ensures given { is_some result ≡ self.boxed }
        ensures body { IfSome result (λ body. (B.name body ≡ self.name)
            × (B.refusal body ≡ Some why) × (B.told body ≡ None)) }
    {
        let Callback { mut body } = self;
        match &mut body {
            Body::Boxed(boxed) => boxed.refused(why),
            Body::Plain(scripted) => scripted.refused(why),
        }
        body.into_given()
    }
}

impl<B: Done + Drop> Token for Callback<B> {
    ghost use Rattle.completion_ticket.specs.States.{token_name};

    ghost plan = { λ callback. callback.plan };

    ghost name = { token_name };

    fn script(&self) -> &Script {
        match &self.body {
            Body::Boxed(boxed) => boxed.script(),
            Body::Plain(scripted) => scripted.script(),
        }
    }
}
