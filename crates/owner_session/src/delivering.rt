//! Delivering: what is ready is taken, its callback is told its answer, and what the callback commands is performed.

ghost use Rattle.std.specs.Prelude.{◌≡◌, []};
ghost use Rattle.channel_model.specs.Completion.{ready};
ghost use Rattle.channel_model.specs.Journal.{past_of};
ghost use Rattle.owner_session.specs.Delivering.{DeliversAll, DeliversOne, IsIdle, Spends};
ghost use Rattle.owner_session.specs.Returning.{KeepsPlaces};

use crate::caller::Caller;
use chan_types::Ticket;
use channel_model::Desk;
use completion_ticket::{Callback, Called, Done};
use ticket_delivery::spend as spend_through;

/// Delivers until nothing is ready: commands of callbacks may make further requests ready. Bodies that were told come back.
pub(crate) fn deliver_all<B: Done + Drop>(caller: &mut Caller<B>)
    requires idle { IsIdle caller.old }
    ensures delivers { DeliversAll caller.old caller.new }
    ensures none_ready { ready caller.new.alone.setting (past_of caller.new.alone.seen) ≡ [] }
    ensures idle { IsIdle caller.new }
    ensures places { KeepsPlaces B.name B.told caller.old caller.new }
{
    while let Some(called) = deliver_one(caller) {
        caller.places.put(called);
    }
}

/// Takes the first ready request, and spends its ticket.
fn deliver_one<B: Done + Drop>(caller: &mut Caller<B>) -> Option<Called<B>>
    requires idle { IsIdle caller.old }
    ensures { DeliversOne result caller.old caller.new }
{
    match caller.alone.take() {
        Some(ticket) => Some(spend(caller, ticket)),
        None => None,
    }
}

/// Tells the ticket's callback its answer, and then performs what it commands, on this request's command.
fn spend<B: Done + Drop>(caller: &mut Caller<B>, ticket: Ticket<Callback<B>>) -> Called<B>
    requires idle { IsIdle caller.old }
    ensures { Spends ticket result caller.old caller.new }
{
    let (called, call, lost) = spend_through(&mut caller.alone, &mut caller.hand, ticket);
    caller.calls.add(call);
    caller.lost = caller.lost.saturating_add(lost);
    called
}
