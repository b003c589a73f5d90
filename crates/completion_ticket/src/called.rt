//! What remains of a callback after its call.

ghost use Rattle.std.specs.Prelude.{◌≡◌, Some, IfSome, is_some};
ghost use Rattle.completion_ticket.specs.Bodies.{is_boxed, name_of, told_of};

use crate::body::Body;
use crate::done::Done;
use std::marker::Model;

/// A callback that was called: its body, which was told the answer with this number. Contracts see it as the number,
/// whether the caller gave the body, and its name: who was called.
#[derive(Drop)]
pub struct Called<B: Done + Drop> {
    number: u64,
    body: Body<B>,
}

impl<B: Done + Drop> Model for Called<B> {
    ghost use Rattle.std.specs.Prelude.{◌≡◌, Some};
    ghost use Rattle.completion_ticket.specs.States.{CalledState};
    ghost use Rattle.completion_ticket.specs.Bodies.{is_boxed, name_of, told_of};

    ghost Value = { CalledState };

    ghost view = { λ called. record {
      number = called.number;
      boxed = is_boxed called.body;
      name = name_of B.name called.body;
    } };

    ghost invariant = { λ called. told_of B.told called.body ≡ Some called.number };
}

impl<B: Done + Drop> Called<B> {
    ghost use Rattle.completion_ticket.specs.States.{CalledState};

    /// What remains of a callback with this body, which was told the answer with this number.
    pub(crate) fn of(number: u64, body: Body<B>) -> Called<B>
        requires { told_of B.told body ≡ Some number }
        ensures { result ≡ record { number = number; boxed = is_boxed body; name = name_of B.name body } }
    {
        Called { number, body }
    }

    /// The number of the answer that it was told.
    pub fn number(&self) -> u64
        ensures { result ≡ self.now.number }
    {
        self.number
    }

    /// Whether the caller gave the body.
    pub fn boxed(&self) -> bool
        ensures { result ≡ self.now.boxed }
    {
        match &self.body {
            Body::Boxed(_) => true,
            Body::Plain(_) => false,
        }
    }

    /// The body that the caller gave, if he gave one: it is the one that was accepted, and was told the answer of this number.
    pub fn into_body(self) -> Option<B>
        ensures given { is_some result ≡ self.boxed }
        ensures body { IfSome result (λ body. (B.name body ≡ self.name) × (B.told body ≡ Some self.number)) }
    {
        self.body.into_given()
    }
}
