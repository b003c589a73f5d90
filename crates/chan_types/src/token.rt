//! Tokens: what a channel keeps of a request's callback until the request completes.

ghost use Rattle.std.specs.Prelude.{◌≡◌};
ghost use Rattle.chan_types.specs.Plans.{blank};

use crate::script::Script;
use std::alloc::Global;
use std::marker::Model;

/// What a request is accepted with, and what comes back with its answer. It has a script, which never changes, and a name
/// that contracts see: who it is.
pub trait Token: Drop {
    ghost use Rattle.std.specs.Prelude.{ℕ};
    ghost use Rattle.chan_types.specs.declared.script.Script.{Script};

    ghost plan: { Self → Script };

    ghost name: { Self → ℕ };

    /// The commands that will be given for the answer.
    fn script(&self) -> &Script
        ensures { result.now ≡ plan self.now };
}

/// A token that gives no command: its script has tag 0 and no step.
#[derive(Drop)]
pub struct Quiet {
    script: Script,
}

impl Model for Quiet {
    ghost use Rattle.std.specs.Prelude.{◌≡◌};
    ghost use Rattle.chan_types.specs.Plans.{blank};

    ghost Value = { Unit {0} };

    ghost view = { λ quiet. tt };

    ghost invariant = { λ quiet. quiet.script ≡ blank 0 };
}

impl Quiet {
    /// A token that gives no command. It takes no memory.
    pub fn new(alloc: Global) -> Quiet
        ensures { ⟦<Quiet as Token>⟧.plan result ≡ blank 0 }
    {
        Quiet {
            script: Script::blank(alloc, 0),
        }
    }
}

impl Token for Quiet {
    ghost use Rattle.chan_types.specs.Plans.{blank};

    ghost plan = { λ quiet. blank 0 };

    ghost name = { λ quiet. 0 };

    fn script(&self) -> &Script {
        &self.script
    }
}
