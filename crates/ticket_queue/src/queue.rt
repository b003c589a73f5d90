//! The queue.
ghost use Rattle.std.specs.Prelude.{◌≡◌, IfNone, IfSome};
ghost use Rattle.std.specs.List.Sorted.{IsPermutation};
ghost use Rattle.ticket_queue.specs.Passes.{HasAllShares, IsAt, MayReceive, MaySend, WasFull, after_join, after_receive, after_send};

use crate::pass::QueuePass;
use crate::rule::{Balance, Empties, Merge, Receives, Sends};
use crate::view::View;
use crossbeam_channel::{RuledReceiver, RuledSender, TrySendError};
use std::marker::Model;
use std::sync::Wait;
use std::thread;

/// A bounded queue of messages. Contracts see which one it is, and its room.
#[derive(Drop)]
pub struct Queue<M: Drop> {
    pub(crate) sender: RuledSender<M, View<M>, Balance<M>>,
    pub(crate) receiver: RuledReceiver<M, View<M>, Balance<M>>,
}

impl<M: Drop> Model for Queue<M> {
    ghost use Rattle.std.specs.Prelude.{◌≡◌};
    ghost use Rattle.crossbeam_channel.specs.Claims.{IsKeyed};
    ghost use Rattle.crossbeam_channel.specs.Ends.{receives_on, ruled_capacity, sends_on};
    ghost use Rattle.ticket_queue.specs.Passes.{QueueState};

    ghost Value = { QueueState M };

    ghost view = { λ queue. record {
      table = (sends_on queue.sender).stamps.shared.table_id;
      key = (sends_on queue.sender).stamps.shared.key;
      room = ruled_capacity (sends_on queue.sender);
    } };

    ghost invariant = { λ queue. (receives_on queue.receiver ≡ sends_on queue.sender) × IsKeyed (sends_on queue.sender) };
}

impl<M: Drop> Queue<M> {
    /// Sends a message, or gives it back where the queue was full at a moment of this call.
    pub fn try_send<R: Wait>(&self, rt: &R, pass: &mut QueuePass<M>, message: M) -> Option<M>
        requires at { IsAt self.now pass.old }
        requires sender { MaySend pass.old }
        ensures sent { IfNone result (pass.new ≡ after_send pass.old message) }
        ensures back { IfSome result (λ back. (back ≡ message) × (pass.new ≡ pass.old) × WasFull self.now pass.old) }
    {
        match self
            .sender
            .try_send_as::<Sends<M>, R>(rt, &mut pass.token, message)
        {
            Ok(()) => None,
            Err(TrySendError::Full(back)) => Some(back),
            // The kit doesn't say that this never comes, though the receiving end stands in the queue itself.
            Err(_) => {
                for _ in rt.forever() {}
                unreachable!()
            }
        }
    }

    /// Waits for room, and sends a message.
    pub fn send<R: Wait>(&self, rt: &R, pass: &mut QueuePass<M>, message: M)
        requires at { IsAt self.now pass.old }
        requires sender { MaySend pass.old }
        ensures { pass.new ≡ after_send pass.old message }
    {
        match self
            .sender
            .send_as::<Sends<M>, R>(rt, &mut pass.token, message)
        {
            Ok(()) => {}
            Err(_) => for _ in rt.forever() {},
        }
    }

    /// Waits for a message, and receives it.
    pub fn receive<R: Wait>(&self, rt: &R, pass: &mut QueuePass<M>) -> M
        requires at { IsAt self.now pass.old }
        requires receiver { MayReceive pass.old }
        ensures { pass.new ≡ after_receive pass.old result }
    {
        for _ in rt.forever() {
            if let Some(message) = self.receive_once(rt, pass) {
                return message;
            }
            thread::yield_now();
        }
        unreachable!()
    }

    /// Waits for a message, and receives it. The kit doesn't say that it waits until there is one.
    fn receive_once<R: Wait>(&self, rt: &R, pass: &mut QueuePass<M>) -> Option<M>
        requires at { IsAt self.now pass.old }
        requires receiver { MayReceive pass.old }
        ensures some { IfSome result (λ message. pass.new ≡ after_receive pass.old message) }
        ensures none { IfNone result (pass.new ≡ pass.old) }
    {
        self.receiver
            .recv_as::<Receives<M>, R>(rt, &mut pass.token)
            .ok()
    }

    /// Receives a message with the pass that has all shares. Where there is none, all that was sent was received.
    pub fn receive_rest<R: Wait>(&self, rt: &R, pass: &mut QueuePass<M>) -> Option<M>
        requires at { IsAt self.now pass.old }
        requires all { HasAllShares pass.old }
        ensures received { IfSome result (λ message. pass.new ≡ after_receive pass.old message) }
        ensures empty { IfNone result ((pass.new ≡ pass.old) × IsPermutation pass.old.sent pass.old.got) }
    {
        self.receiver
            .try_recv_as::<Empties<M>, R>(rt, &mut pass.token)
            .ok()
    }

    /// Joins the right pass into the left one, which then has both shares, and has sent and received what both had.
    pub fn join(&self, left: QueuePass<M>, right: QueuePass<M>) -> QueuePass<M>
        requires left { IsAt self.now left }
        requires right { IsAt self.now right }
        ensures { result ≡ after_join left right }
    {
        let QueuePass { mut token } = left;
        self.sender.absorb::<Merge<M>>(&mut token, right.token);
        QueuePass { token }
    }
}
