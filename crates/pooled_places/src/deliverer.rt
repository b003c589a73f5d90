//! A place as what spends a pool's tickets.

use crate::ticket::ChannelTicket;
use chan_types::Orders;
use completion_ticket::Done;
use delivery_pool::Spender;
use shared_channel::{Pass, Place, spend};
use std::sync::Wait;

/// A place, and the orders that the callbacks go by which are told their answers through it.
#[derive(Drop)]
pub struct Deliverer<'c, B: Done + Drop, R: Wait> {
    pub place: Place<'c, B, R>,
    pub orders: Orders,
}

impl<'c, B: Done + Drop, R: Wait> Spender<ChannelTicket<'c, B>> for Deliverer<'c, B, R> {
    ghost use Rattle.pooled_places.specs.Delivery.{SpendsTicket};

    type State = (Orders, Pass<B>);

    ghost state = { λ deliverer. (deliverer.orders, deliverer.place) };

    ghost spends = { SpendsTicket };

    /// Tells the ticket's callback its answer, with no lock held, and then performs what it commands.
    fn spend(&mut self, ticket: ChannelTicket<'c, B>) {
        let _called = spend(&mut self.place, ticket.into_ticket(), self.orders);
    }
}
