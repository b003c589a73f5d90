//! A caller's right to a queue.

use crate::view::View;
use crossbeam_channel::Pass;
use std::marker::Model;

/// A right to make calls on a queue. It can't be copied. It has no bytes.
#[derive(Drop)]
pub struct QueuePass<M: Drop> {
    pub(crate) token: Pass<M, View<M>>,
}

impl<M: Drop> Model for QueuePass<M> {
    ghost use Rattle.std.specs.Prelude.{◌≡◌, []};
    ghost use Rattle.ticket_queue.specs.Passes.{PassState, state_of};

    ghost Value = { PassState M };

    ghost view = { λ pass. state_of pass.token.table_id pass.token.me.0.of pass.token.me.0.client };

    ghost invariant = { λ pass. pass.token.me.1 ≡ [] };
}
