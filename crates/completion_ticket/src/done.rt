//! What a caller wants to be told by.

ghost use Rattle.std.specs.Prelude.{◌≡◌, [], Some, None};
ghost use Rattle.chan_types.specs.Gives.{gives};

use crate::hand::Hand;
use chan_types::{Answer, Refusal, Script};

/// Something that is told an answer, once, and gives commands by its script. In clauses it has four meanings: `name`, who
/// it is; `plan`, its script; `told`, the number of the answer that it was told; and `refusal`, why its request was refused.
pub trait Done {
    ghost use Rattle.std.specs.Prelude.{ℕ, Option};
    ghost use Rattle.chan_types.specs.declared.refusal.Refusal.{Refusal};
    ghost use Rattle.chan_types.specs.declared.script.Script.{Script};

    ghost name: { Self → ℕ };

    ghost plan: { Self → Script };

    ghost told: { Self → Option ℕ };

    ghost refusal: { Self → Option Refusal };

    /// The commands that it will give for the answer.
    fn script(&self) -> &Script
        ensures { result.now ≡ plan self.now };

    /// The number of the answer that it was told, if it was told one.
    fn called(&self) -> Option<u64>
        ensures { result ≡ told self.now };

    /// Tells it the answer of its request. It puts the commands of its script into the hand, which is empty: so there is
    /// room for eight. It stays who it is; what its script is afterwards isn't said.
    fn done(&mut self, answer: &Answer, hand: &mut Hand)
        requires fresh { told self.old ≡ None }
        requires room { hand.old.commands ≡ [] }
        ensures gives { hand.new
            ≡ record hand.old { commands = gives (plan self.old) answer.now hand.old.orders } }
        ensures told { told self.new ≡ Some answer.now.number }
        ensures name { name self.new ≡ name self.old };

    /// Tells it that its request was refused, and why. It stays who it is.
    fn refused(&mut self, why: Refusal)
        ensures refusal { refusal self.new ≡ Some why }
        ensures told { told self.new ≡ told self.old }
        ensures name { name self.new ≡ name self.old };
}

impl Done for Box<dyn Done + Send + Drop> {
    ghost name = { λ boxed. (Done-box boxed).name boxed.value };

    ghost plan = { λ boxed. (Done-box boxed).plan boxed.value };

    ghost told = { λ boxed. (Done-box boxed).told boxed.value };

    ghost refusal = { λ boxed. (Done-box boxed).refusal boxed.value };

    fn script(&self) -> &Script {
        (**self).script()
    }

    fn called(&self) -> Option<u64> {
        (**self).called()
    }

    fn done(&mut self, answer: &Answer, hand: &mut Hand) {
        (**self).done(answer, hand);
    }

    fn refused(&mut self, why: Refusal) {
        (**self).refused(why);
    }
}
