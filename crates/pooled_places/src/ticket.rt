//! Tickets that know their channel.

ghost use Rattle.std.specs.Prelude.{◌≡◌, IfSome};
ghost use Rattle.channel_model.specs.Known.{Calls};
ghost use Rattle.channel_model.specs.Meanings.{Takes};
ghost use Rattle.shared_channel.specs.Passes.{desk_of};
ghost use Rattle.shared_channel.specs.Spending.{Spends};
ghost use Rattle.shared_channel.specs.Under.{plan_of};
ghost use Rattle.pooled_places.specs.Tickets.{ticket_in};

use chan_types::{Orders, Ticket};
use channel_model::Desk;
use completion_ticket::{Callback, Called, Done};
use shared_channel::{Channel, Place};
use std::marker::Model;
use std::sync::Wait;

/// A ticket of this channel. `take` alone makes one.
#[derive(Drop)]
pub struct ChannelTicket<'c, B: Done + Drop> {
    channel: &'c Channel<B>,
    ticket: Ticket<Callback<B>>,
}

impl<'c, B: Done + Drop> Model for ChannelTicket<'c, B> {
    ghost use Rattle.std.specs.Coded.{codes};
    ghost use Rattle.chan_types.specs.PlanCode.{moves_code};
    ghost use Rattle.pooled_places.specs.Tickets.{TicketState};

    ghost Value = { TicketState };

    ghost coded = { Prim.hlevel (codes, moves_code) };

    ghost view = { λ its. record { channel = its.channel.now; ticket = its.ticket } };
}

impl<'c, B: Done + Drop> ChannelTicket<'c, B> {
    /// The ticket alone.
    pub(crate) fn into_ticket(self) -> Ticket<Callback<B>>
        ensures { result ≡ self.entry.ticket }
    {
        let ChannelTicket { ticket, .. } = self;
        ticket
    }
}

/// Takes the first ready request of this channel, through a place at it.
pub fn take<'c, B: Done + Drop, R: Wait>(
    channel: &'c Channel<B>,
    place: &mut Place<'c, B, R>,
) -> Option<ChannelTicket<'c, B>>
    requires { place.old.lock ≡ channel.now }
    ensures takes { Calls (Takes plan_of (ticket_in result)) 0 (desk_of place.old) (desk_of place.new) }
    ensures channel { IfSome result (λ its. its.channel ≡ channel.now) }
{
    match place.take() {
        Some(ticket) => Some(ChannelTicket { channel, ticket }),
        None => None,
    }
}

/// Tells the ticket's callback its answer, with no lock held, through a place at its channel, and then performs what it
/// commands.
pub fn spend<'c, B: Done + Drop, R: Wait>(
    place: &mut Place<'c, B, R>,
    ticket: ChannelTicket<'c, B>,
    orders: Orders,
) -> Called<B>
    requires { ticket.channel ≡ place.old.lock }
    ensures { Spends orders ticket.entry.ticket place.old result place.new }
{
    shared_channel::spend(place, ticket.into_ticket(), orders)
}
