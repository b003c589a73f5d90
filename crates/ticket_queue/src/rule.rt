//! The queue's rule, and the kinds of step over it.

use crate::view::View;
use crossbeam_channel::protocol::{Join, Lesson, Outcome, Protocol, Split};
use std::marker::PhantomData;

/// What was sent is, up to order, what was received and what the queue holds.
pub struct Balance<M> {
    of: PhantomData<M>,
}

impl<M: Drop> Protocol<M, View<M>> for Balance<M> {
    ghost use Rattle.ticket_queue.specs.Rule.{IsBalanced, first_view};

    ghost holds = { IsBalanced };

    ghost first = { first_view };
}

/// A message is sent, or the queue was full.
pub struct Sends<M> {
    of: PhantomData<M>,
}

impl<M: Drop> Outcome<M, View<M>> for Sends<M> {
    ghost use Rattle.std.specs.Prelude.{◌≡◌};
    ghost use Rattle.ticket_queue.specs.Rule.{view_after_send};

    ghost then = { λ view message next. next ≡ view_after_send view message };
}

impl<M: Drop> Lesson<M, View<M>> for Sends<M> {
    ghost use Rattle.ticket_queue.specs.Rule.{AreUnread};

    ghost fact = { λ view messages. AreUnread view.sent view.got messages };
}

/// A message is received. Where there was none, nothing is learned.
pub struct Receives<M> {
    of: PhantomData<M>,
}

impl<M: Drop> Outcome<M, View<M>> for Receives<M> {
    ghost use Rattle.std.specs.Prelude.{◌≡◌};
    ghost use Rattle.ticket_queue.specs.Rule.{view_after_receive};

    ghost then = { λ view message next. next ≡ view_after_receive view message };
}

impl<M: Drop> Lesson<M, View<M>> for Receives<M> {
    ghost use Rattle.std.specs.Prelude.{⊤};

    ghost fact = { λ view messages. ⊤ };
}

/// A message is received by the pass that has all shares, or the queue is empty.
pub struct Empties<M> {
    of: PhantomData<M>,
}

impl<M: Drop> Outcome<M, View<M>> for Empties<M> {
    ghost use Rattle.std.specs.Prelude.{◌≡◌};
    ghost use Rattle.ticket_queue.specs.Rule.{view_after_receive};

    ghost then = { λ view message next. next ≡ view_after_receive view message };
}

impl<M: Drop> Lesson<M, View<M>> for Empties<M> {
    ghost use Rattle.std.specs.List.Sorted.{IsPermutation};
    ghost use Rattle.std.specs.Prelude.{◌++◌};

    ghost fact = { λ view messages. IsPermutation view.sent (view.got ++ messages) };
}

/// One share is cut off, with nothing sent or received.
pub struct Cut<M> {
    of: PhantomData<M>,
}

impl<M> Split<View<M>> for Cut<M> {
    ghost use Rattle.std.specs.Prelude.{◌-◌};
    ghost use Rattle.ticket_queue.specs.Rule.{newcomer};

    ghost left = { λ view. record view { share = view.share - 1 } };

    ghost right = { λ view. newcomer };
}

/// A pass takes in another.
pub struct Merge<M> {
    of: PhantomData<M>,
}

impl<M> Join<View<M>> for Merge<M> {
    ghost use Rattle.ticket_queue.specs.Rule.{view_after_join, spent_view};

    ghost both = { view_after_join };

    ghost spent = { spent_view };
}
