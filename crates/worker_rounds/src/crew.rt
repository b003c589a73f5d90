//! The workers of a pool: made of passes, and taken apart into them again.

ghost use Rattle.std.specs.List.{AllByRecursion};
ghost use Rattle.std.specs.Prelude.{◌≡◌, ◌≤◌, ◌+◌, ◌++◌, [], vec_capacity, vec_len};
ghost use Rattle.shared_channel.specs.Staying.{AreAt};
ghost use Rattle.ticket_queue.specs.Passes.{new_pass};
ghost use Rattle.worker_rounds.specs.Crews.{AreNewRights, AreNewWorkers, places_of, rights_of};

use chan_types::Orders;
use completion_ticket::Done;
use delivery_pool::Worker;
use pooled_places::{ChannelPool, ChannelTicket, Deliverer, PoolPass};
use shared_channel::{Channel, Pass};
use std::sync::Wait;

/// A worker for each of these passes of a channel, in their order, with a pass of the pool each. There is room for them.
pub fn hire<'p, 'c, B: Done + Drop, R: Wait>(
    rt: &'c R,
    channel: &'c Channel<B>,
    pool: &'p ChannelPool<'c, B>,
    orders: Orders,
    passes: &mut Vec<Pass<B>>,
    rights: &mut Vec<PoolPass<'c, B>>,
    crew: Vec<Worker<'p, ChannelTicket<'c, B>, Deliverer<'c, B, R>>>,
) -> Vec<Worker<'p, ChannelTicket<'c, B>, Deliverer<'c, B, R>>>
    requires channel { pool.now.channel ≡ channel.now }
    requires at { AreAt channel.now passes.old.items }
    requires rights { AreNewRights pool.now.pool.queue rights.old.items }
    requires as_many { vec_len rights.old ≡ vec_len passes.old }
    requires none { crew.items ≡ [] }
    requires room { vec_len passes.old ≤ vec_capacity crew }
    ensures places { places_of (λ its. its.place) result.items ≡ passes.old.items }
    ensures new { AreNewWorkers (λ its. its.orders) pool.now.pool orders result.items }
    ensures empty { (passes.new.items ≡ []) × (rights.new.items ≡ []) }
    ensures room { (vec_capacity passes.new ≡ vec_capacity passes.old) × (vec_capacity rights.new ≡ vec_capacity rights.old) }
{
    let mut crew = crew;
    while !passes.is_empty() {
        let place = channel.place(rt, passes.remove(0));
        let right = rights.pop().unwrap();
        crew.push_reserved(pool.worker(right, Deliverer { place, orders }));
    }
    crew
}

/// The passes of these workers again: the channel's behind those of `passes`, and the pool's behind those of `rights`, where
/// there is room.
pub fn dismiss<'p, 'c, B: Done + Drop, R: Wait>(
    crew: Vec<Worker<'p, ChannelTicket<'c, B>, Deliverer<'c, B, R>>>,
    passes: &mut Vec<Pass<B>>,
    rights: &mut Vec<PoolPass<'c, B>>,
)
    requires passes_room { vec_len passes.old + vec_len crew ≤ vec_capacity passes.old }
    requires rights_room { vec_len rights.old + vec_len crew ≤ vec_capacity rights.old }
    ensures passes { passes.new.items ≡ passes.old.items ++ places_of (λ its. its.place) crew.entry.items }
    ensures rights { rights.new.items ≡ rights.old.items ++ rights_of crew.entry.items }
    ensures room { (vec_capacity passes.new ≡ vec_capacity passes.old) × (vec_capacity rights.new ≡ vec_capacity rights.old) }
{
    let mut crew = crew;
    while !crew.is_empty() {
        let Worker { pass, spender, .. } = crew.remove(0);
        let Deliverer { place, .. } = spender;
        passes.push_reserved(place.leave());
        rights.push_reserved(pass);
    }
    let_go(crew);
}

/// Lets go what has held workers.
fn let_go<T: Drop, S: Drop>(crew: Vec<Worker<'_, T, S>>) {
    let _crew = crew;
}
