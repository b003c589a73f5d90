//! The owner of a channel, who calls its callbacks and performs what they command.

ghost use Rattle.std.specs.Prelude.{◌≡◌, IfOk};
ghost use Rattle.owner_session.specs.Delivering.{fresh_caller};

use crate::places::Places;
use chan_types::{Calls, NoMemory, Orders};
use channel_table::Alone;
use completion_ticket::{Callback, Done, Hand};
use hosts_file::Hosts;
use resolv_options::Options;
use std::alloc::Global;

/// A channel with the one who calls its callbacks: their commands on the way, the answers that were told, how many requests
/// that callbacks asked were lost for want of memory, and the bodies of the run's own requests.
#[derive(Drop)]
pub(crate) struct Caller<B: Done + Drop> {
    pub alone: Alone<Callback<B>>,
    pub hand: Hand,
    pub calls: Calls,
    pub lost: u64,
    pub places: Places<B>,
}

impl<B: Done + Drop> Caller<B> {
    /// The owner of a new channel, whose callbacks go by these orders. He has no bodies yet.
    pub fn make(
        alloc: Global,
        options: Options,
        hosts: Hosts,
        orders: Orders,
    ) -> Result<Caller<B>, NoMemory>
        ensures { IfOk result (λ caller. caller
            ≡ fresh_caller options hosts orders) }
    {
        let mut hand = Hand::make(alloc)?;
        hand.set(orders);
        Ok(Caller {
            alone: Alone::make(alloc, options, hosts)?,
            hand,
            calls: Calls::new(),
            lost: 0,
            places: Places::of(alloc, Vec::new(alloc)),
        })
    }
}
