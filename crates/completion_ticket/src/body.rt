//! What stands in a callback: what the caller gave, or a script alone.

ghost use Rattle.std.specs.Prelude.{◌≡◌};
ghost use Rattle.completion_ticket.specs.Bodies.{given};

use crate::done::Done;
use crate::scripted::Scripted;

/// The body of a callback.
#[derive(Drop)]
pub(crate) enum Body<B: Done + Drop> {
    /// What the caller gave: a box, in a program.
    Boxed(B),
    /// A script alone.
    Plain(Scripted),
}

impl<B: Done + Drop> Body<B> {
    /// What the caller gave, if he gave it.
    pub fn into_given(self) -> Option<B>
        ensures { result ≡ given self }
    {
        match self {
            Body::Boxed(boxed) => Some(boxed),
            Body::Plain(_) => None,
        }
    }
}
