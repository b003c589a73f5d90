//! The owner of a channel as the source of a pool's tickets.

ghost use Rattle.std.specs.Prelude.{◌≡◌, IsTrue};
ghost use Rattle.shared_channel.specs.Passes.{desk_of};
ghost use Rattle.worker_rounds.specs.Course.{Draws, MakesStep};

use crate::feeding::Source;
use crate::pump::Pump;
use completion_ticket::Done;
use delivery_pool::Spender;
use pooled_places::{ChannelTicket, Deliverer, take};
use shared_channel::{Channel, Place};
use std::sync::Wait;

/// A place at a channel with its orders, and what is done through it while no request is ready.
#[derive(Drop)]
pub struct Keeper<'c, B: Done + Drop, P: Drop, R: Wait> {
    pub channel: &'c Channel<B>,
    pub deliverer: Deliverer<'c, B, R>,
    pub pump: P,
    ghost here: { deliverer.place.lock ≡ channel.now },
}

impl<'c, B: Done + Drop, P: Pump + Drop, R: Wait> Keeper<'c, B, P, R> {
    /// Whether all is done, where the workers have stopped.
    pub fn is_done(&mut self) -> bool
        ensures step { MakesStep P.steps (self.old.deliverer.place, self.old.pump) (self.new.deliverer.place, self.new.pump) }
        ensures ends { IsTrue result → P.ends self.new.pump (desk_of self.new.deliverer.place) }
        ensures orders { self.new.deliverer.orders ≡ self.old.deliverer.orders }
    {
        self.pump.is_done(&mut self.deliverer.place)
    }
}

impl<'c, B: Done + Drop, P: Pump + Drop, R: Wait> Source<ChannelTicket<'c, B>>
    for Keeper<'c, B, P, R> {
    ghost use Rattle.std.specs.Prelude.{◌≡◌};
    ghost use Rattle.pooled_places.specs.Delivery.{SpendsTicket};
    ghost use Rattle.worker_rounds.specs.Course.{Draws};

    ghost draws = { λ old drawn new. Draws P.steps old.deliverer.place old.pump drawn new.deliverer.place new.pump × (new.deliverer.orders ≡ old.deliverer.orders) };

    ghost spends = { λ old its new. (new.pump ≡ old.pump) × SpendsTicket (old.deliverer.orders, old.deliverer.place) its (new.deliverer.orders, new.deliverer.place) };

    /// Takes the first ready request, and does what there is to do until one is.
    fn draw(&mut self) -> Option<ChannelTicket<'c, B>> {
        let channel = self.channel;
        draw_through(channel, &mut self.deliverer.place, &mut self.pump)
    }

    fn spend(&mut self, ticket: ChannelTicket<'c, B>) {
        self.deliverer.spend(ticket);
    }
}

/// Takes the first ready request of this channel through a place at it, and does what there is to do until one is.
fn draw_through<'c, B: Done + Drop, P: Pump, R: Wait>(
    channel: &'c Channel<B>,
    place: &mut Place<'c, B, R>,
    pump: &mut P,
) -> Option<ChannelTicket<'c, B>>
    requires { place.old.lock ≡ channel.now }
    ensures lock { place.new.lock ≡ channel.now }
    ensures draws { Draws P.steps place.old pump.old result place.new pump.new }
{
    for _ in 0..u64::MAX {
        if let Some(ticket) = take(channel, place) {
            return Some(ticket);
        }
        if !pump.step(place) {
            return None;
        }
    }
    None
}
