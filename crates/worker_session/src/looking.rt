//! What there is to do at a channel.

ghost use Rattle.worker_session.specs.Turning.{Looks};

use channel_model::Desk;

/// What there is to do at a channel.
#[derive(Clone, Copy, Debug, PartialEq, Eq)]
pub(crate) enum Look {
    /// A request is ready.
    Ready,
    /// None is ready, and one is pending.
    Pending,
    /// Nothing is pending or ready.
    Nothing,
}

/// Looks at this desk's channel.
pub(crate) fn look_at<D: Desk>(desk: &mut D) -> Look
    ensures { Looks result (D.known desk.old) (D.known desk.new) }
{
    let counts = desk.counts();
    if counts.ready != 0 {
        Look::Ready
    } else if counts.pending != 0 {
        Look::Pending
    } else {
        Look::Nothing
    }
}
