//! What is left to be done on a channel.

ghost use Rattle.std.specs.Prelude.{◌≡◌};
ghost use Rattle.channel_session.specs.Left.{LooksAt};

use channel_model::Desk;

/// What is left to be done on a channel.
#[derive(Clone, Copy, Debug, PartialEq, Eq)]
pub enum Left {
    /// A request is pending.
    Pending,
    /// None is pending, and one is ready.
    Ready,
    /// Nothing is pending or ready.
    Nothing,
}

/// What is left to be done on this desk's channel.
pub fn left_on<D: Desk>(desk: &mut D) -> Left
    ensures { LooksAt result (D.known desk.old) (D.known desk.new) }
{
    let counts = desk.counts();
    if counts.pending != 0 {
        Left::Pending
    } else if counts.ready != 0 {
        Left::Ready
    } else {
        Left::Nothing
    }
}
