//! The calls of a channel that a callback can command.

ghost use Rattle.std.specs.Prelude.{◌≡◌};
ghost use Rattle.channel_model.specs.Known.{Known, Calls};
ghost use Rattle.channel_model.specs.Meanings.{Accepts, Cancels, Destroys};

use chan_types::{Spec, Token};
use channel_model::Refused;

/// A way to use a channel on the command of a request's callback: one owner's or one thread's. The clauses are those of a
/// desk's accept, cancel and destroy, but for whose command it is.
pub trait CommandDesk<T: Token> {
    /// What it knows of its channel.
    ghost known: { Self → Known };

    /// Accepts a request on this request's command, and answers its number.
    fn accept_for(&mut self, by: u64, spec: Spec, token: T) -> Result<u64, Refused<T>>
        requires { (known self.old).voice ≡ 0 }
        ensures { Calls (Accepts T.plan spec token result) by (known self.old) (known self.new) };

    /// Completes every pending request as cancelled, on this request's command, and answers how many there were.
    fn cancel_for(&mut self, by: u64) -> u64
        requires { (known self.old).voice ≡ 0 }
        ensures { Calls (Cancels result) by (known self.old) (known self.new) };

    /// Destroys the channel on this request's command. Answers whether it was the first to do so.
    fn destroy_for(&mut self, by: u64) -> bool
        requires { (known self.old).voice ≡ 0 }
        ensures { Calls (Destroys result) by (known self.old) (known self.new) };
}
