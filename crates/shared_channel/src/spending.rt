//! Spending tickets: a callback is told its answer while nobody holds the lock, and then its commands are performed.

ghost use Rattle.shared_channel.specs.Spending.{DeliversOne, Spends};

use crate::place::Place;
use chan_types::{Orders, Ticket};
use channel_journal::ChannelJournal;
use channel_model::Desk;
use completion_ticket::{Callback, Called, Done};
use std::sync::Wait;
use ticket_delivery::spend as spend_through;

/// Tells the ticket's callback its answer, with no lock held, and then performs what it commands: each command in a turn
/// of its own, on this request's command. A request that is lost for want of memory is counted.
pub fn spend<B: Done + Drop, R: Wait, J: ChannelJournal>(
    place: &mut Place<'_, B, R, J>,
    ticket: Ticket<Callback<B>>,
    orders: Orders,
) -> Called<B>
    ensures { Spends orders ticket place.old result place.new }
{
    place.hand.set(orders);
    let (called, call, lost) = spend_through(&mut place.turns, &mut place.hand, ticket);
    place.turns.note(call, lost);
    called
}

/// Takes the first ready request, and spends its ticket.
pub fn deliver_one<B: Done + Drop, R: Wait, J: ChannelJournal>(
    place: &mut Place<'_, B, R, J>,
    orders: Orders,
) -> Option<Called<B>>
    ensures { DeliversOne orders place.old result place.new }
{
    match place.take() {
        Some(ticket) => Some(spend(place, ticket, orders)),
        None => None,
    }
}
