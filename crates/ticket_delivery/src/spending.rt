//! Spending a ticket.

ghost use Rattle.std.specs.Prelude.{◌≡◌, []};
ghost use Rattle.chan_types.specs.Gives.{gives};
ghost use Rattle.channel_model.specs.Known.{IsSameDesk};
ghost use Rattle.completion_ticket.specs.States.{called_with};
ghost use Rattle.ticket_delivery.specs.Performing.{Performs};

use crate::command_desk::CommandDesk;
use crate::performing::perform_all;
use chan_types::{Call, Ticket};
use completion_ticket::{Callback, Called, Done, Hand};

/// Spends a ticket: its callback is told the answer, by the orders of the hand, and then what it commands is performed, each
/// command on this request's command. Answers what is left of the callback, the call that was made, which is to be noted, and
/// how many requests that the callback asked were lost for want of memory.
pub fn spend<B: Done + Drop, D: CommandDesk<Callback<B>>>(
    desk: &mut D,
    hand: &mut Hand,
    ticket: Ticket<Callback<B>>,
) -> (Called<B>, Call, u64)
    requires idle { hand.old.commands ≡ [] }
    requires free { (D.known desk.old).voice ≡ 0 }
    ensures called { result.0 ≡ called_with ticket.call.number ticket.token }
    ensures call { result.1 ≡ ticket.call }
    ensures same { IsSameDesk (D.known desk.old) (D.known desk.new) }
    ensures performed { Performs (gives ticket.token.plan ticket.call hand.old.orders)
        ticket.call.number (D.known desk.old) (D.known desk.new) result.2 }
    ensures hand { hand.new ≡ hand.old }
{
    let by = ticket.number();
    let (callback, call) = ticket.spend();
    let called = callback.call(call.answer(), hand);
    let lost = perform_all(desk, hand, by);
    (called, call, lost)
}
