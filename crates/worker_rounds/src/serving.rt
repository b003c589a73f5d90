//! A channel that is served with workers: rounds over one pool, from its passes to its passes.

ghost use Rattle.std.specs.Prelude.{◌≡◌, ◌<◌, ◌≤◌, ◌+◌, ◌-◌, ◌∷◌, [], length, vec_capacity, vec_len};
ghost use Rattle.shared_channel.specs.Settling.{AreSettled};
ghost use Rattle.shared_channel.specs.Staying.{AreAt};
ghost use Rattle.ticket_queue.specs.Passes.{IsAt, MaySend, new_pass};
ghost use Rattle.pooled_places.specs.Standing.{AreStill};
ghost use Rattle.worker_rounds.specs.Crews.{AreNewRights};
ghost use Rattle.delivery_pool.specs.Pools.{AreAll};
ghost use Rattle.worker_rounds.specs.Serving.{DrainsFirst, IsPoolFor, IsRun, RunsOut, Serves};

use crate::crew::{dismiss, hire};
use crate::feeding::Feeder;
use crate::keeper::Keeper;
use crate::pump::Pump;
use crate::rounds::run_rounds;
use chan_types::Orders;
use completion_ticket::Done;
use delivery_pool::Worker;
use pooled_places::{ChannelPool, ChannelTicket, Deliverer, PoolPass};
use shared_channel::{Channel, Pass};
use std::alloc::Global;
use std::sync::Wait;
use std::thread::Threads;

/// The passes of a channel that is served: its owner's, and one for each worker.
#[derive(Drop)]
pub struct Team<B: Done + Drop> {
    pub owner: Pass<B>,
    pub workers: Vec<Pass<B>>,
}

/// What is left of rounds: the passes, in their order; what was done while no request was ready; and whether memory was
/// wanting before anything was done.
#[derive(Drop)]
pub struct Served<B: Done + Drop, P: Drop> {
    pub team: Team<B>,
    pub pump: P,
    pub refused: bool,
}

/// Rounds of a channel, until all is done. In a round the owner takes what is ready and offers it to the workers, over a pool
/// with so much room, and spends what comes back; while nothing is ready it does what there is to do. The workers spend what
/// they get. Behind the last round what nobody has received is spent through the first worker's place. For want of memory nothing is
/// done.
pub fn serve<'c, B: Done + Drop + Send, P: Pump + Drop + Send, R: Threads + Wait + Sync>(
    alloc: Global,
    rt: &'c R,
    channel: &'c Channel<B>,
    orders: Orders,
    room: u64,
    team: Team<B>,
    pump: P,
) -> Served<B, P>
    requires some { (0 < vec_len team.workers) × (vec_len team.workers ≤ 16) }
    requires room { (0 < room) × (room ≤ 4096) }
    requires at { AreAt channel.now (team.owner ∷ team.workers.items) }
    ensures serves { Serves P.steps P.ends orders result.refused team.owner team.workers.items pump
        result.team.owner result.team.workers.items result.pump }
    ensures still { AreStill (team.owner ∷ team.workers.items) (result.team.owner ∷ result.team.workers.items) }
    ensures settled { AreSettled (team.owner ∷ team.workers.items)
        → AreSettled (result.team.owner ∷ result.team.workers.items) }
    ensures room { vec_capacity team.workers ≤ vec_capacity result.team.workers }
{
    let workers = team.workers.len() as u64;
    let Ok((pool, rights)) = ChannelPool::make(alloc, channel, workers, room) else {
        return Served {
            team,
            pump,
            refused: true,
        };
    };
    serve_over(alloc, rt, orders, team, pump, channel, pool, rights)
}

/// The same over this pool, with all of its passes.
fn serve_over<'c, B: Done + Drop + Send, P: Pump + Drop + Send, R: Threads + Wait + Sync>(
    alloc: Global,
    rt: &'c R,
    orders: Orders,
    team: Team<B>,
    pump: P,
    channel: &'c Channel<B>,
    pool: ChannelPool<'c, B>,
    rights: Vec<PoolPass<'c, B>>,
) -> Served<B, P>
    requires some { 0 < vec_len team.workers }
    requires channel { pool.channel ≡ channel.now }
    requires pool { IsPoolFor (length team.workers.items) pool.pool rights.items }
    requires at { AreAt channel.now (team.owner ∷ team.workers.items) }
    ensures serves { Serves P.steps P.ends orders result.refused team.owner team.workers.items pump
        result.team.owner result.team.workers.items result.pump }
    ensures room { vec_capacity team.workers ≤ vec_capacity result.team.workers }
{
    let mut rights = rights;
    let Ok(crew) = Vec::with_capacity(alloc, team.workers.len()) else {
        let_go(pool);
        return Served {
            team,
            pump,
            refused: true,
        };
    };
    let Team { owner, mut workers } = team;
    let place = channel.place(rt, owner);
    let keeper = Keeper {
        channel,
        deliverer: Deliverer { place, orders },
        pump,
    };
    let keeper = run_over(rt, &pool, keeper, &mut workers, &mut rights, crew);
    let Keeper {
        deliverer,
        pump,
        ..
    } = keeper;
    let Deliverer { place, .. } = deliverer;
    let owner = place.leave();
    drain_through(rt, orders, channel, pool, rights, &mut workers);
    Served {
        team: Team { owner, workers },
        pump,
        refused: false,
    }
}

/// Spends what nobody has received, through the first of these passes: its owner takes no requests.
fn drain_through<'c, B: Done + Drop, R: Wait>(
    rt: &'c R,
    orders: Orders,
    channel: &'c Channel<B>,
    pool: ChannelPool<'c, B>,
    rights: Vec<PoolPass<'c, B>>,
    passes: &mut Vec<Pass<B>>,
)
    requires some { 0 < vec_len passes.old }
    requires channel { pool.channel ≡ channel.now }
    requires all { AreAll pool.pool.queue rights.items }
    requires at { AreAt channel.now passes.old.items }
    ensures drains { DrainsFirst orders rights.entry.items passes.old.items passes.new.items }
    ensures room { vec_capacity passes.old ≤ vec_capacity passes.new }
{
    let place = channel.place(rt, passes.remove(0));
    let mut deliverer = Deliverer { place, orders };
    pool.drain(rt, rights, &mut deliverer);
    let Deliverer { place, .. } = deliverer;
    passes.insert(0, place.leave()).unwrap();
}

/// Rounds over a pool, with workers of these passes. All of its passes are left, and those of the channel.
fn run_over<'p, 'c, B: Done + Drop + Send, P: Pump + Drop + Send, R: Threads + Wait + Sync>(
    rt: &'c R,
    pool: &'p ChannelPool<'c, B>,
    keeper: Keeper<'c, B, P, R>,
    passes: &mut Vec<Pass<B>>,
    rights: &mut Vec<PoolPass<'c, B>>,
    crew: Vec<Worker<'p, ChannelTicket<'c, B>, Deliverer<'c, B, R>>>,
) -> Keeper<'c, B, P, R>
    requires channel { pool.now.channel ≡ keeper.channel.now }
    requires pool { IsPoolFor (length passes.old.items) pool.now.pool rights.old.items }
    requires at { AreAt keeper.channel.now passes.old.items }
    requires none { crew.items ≡ [] }
    requires room { vec_len passes.old ≤ vec_capacity crew }
    ensures runs { IsRun P.steps P.ends keeper.entry.deliverer.orders pool.now.pool.queue keeper.entry.deliverer.place
        passes.old.items keeper.entry.pump result.deliverer.place passes.new.items result.pump rights.new.items }
    ensures orders { result.deliverer.orders ≡ keeper.entry.deliverer.orders }
    ensures room { vec_capacity passes.new ≡ vec_capacity passes.old }
{
    let channel = keeper.channel;
    let orders = keeper.deliverer.orders;
    let workers = passes.len() as u64;
    let right = take_right(pool, workers, rights);
    let crew = hire(rt, channel, pool, orders, passes, rights, crew);
    let feeder = Feeder {
        pool: pool.carrier(),
        pass: right,
        source: keeper,
    };
    run_out(rt, feeder, crew, passes, rights)
}

/// Takes the sender's pass of a new pool for so many workers away from the others.
fn take_right<'c, B: Done + Drop>(
    pool: &ChannelPool<'c, B>,
    workers: u64,
    rights: &mut Vec<PoolPass<'c, B>>,
) -> PoolPass<'c, B>
    requires { IsPoolFor workers pool.now.pool rights.old.items }
    ensures new { result ≡ new_pass pool.now.pool.queue (1024 - workers) }
    ensures at { IsAt pool.now.pool.queue result }
    ensures sender { MaySend result }
    ensures others { AreNewRights pool.now.pool.queue rights.new.items }
    ensures as_many { vec_len rights.new ≡ workers }
    ensures room { (vec_capacity rights.new ≡ vec_capacity rights.old) × (workers + 1 ≤ vec_capacity rights.new) }
{
    rights.remove(0)
}

/// Rounds, until all is done. Then the workers are taken apart.
fn run_out<'p, 'c, B: Done + Drop + Send, P: Pump + Drop + Send, R: Threads + Wait + Sync>(
    rt: &R,
    feeder: Feeder<'p, ChannelTicket<'c, B>, Keeper<'c, B, P, R>>,
    crew: Vec<Worker<'p, ChannelTicket<'c, B>, Deliverer<'c, B, R>>>,
    passes: &mut Vec<Pass<B>>,
    rights: &mut Vec<PoolPass<'c, B>>,
) -> Keeper<'c, B, P, R>
    requires empty { (passes.old.items ≡ []) × (rights.old.items ≡ []) }
    requires passes_room { vec_len crew ≤ vec_capacity passes.old }
    requires rights_room { vec_len crew + 1 ≤ vec_capacity rights.old }
    ensures runs { RunsOut P.steps (λ its. its.place) (λ its. its.orders) feeder.entry.source.deliverer.orders P.ends
        (feeder.entry.source.deliverer.place, feeder.entry.source.pump) feeder.entry.pass crew.entry.items
        (result.deliverer.place, result.pump) passes.new.items rights.new.items }
    ensures orders { result.deliverer.orders ≡ feeder.entry.source.deliverer.orders }
    ensures room { vec_capacity passes.new ≡ vec_capacity passes.old }
{
    let mut feeder = feeder;
    let mut crew = crew;
    run_rounds(rt, &mut feeder, &mut crew);
    let Feeder { pass, source, .. } = feeder;
    rights.push_reserved(pass);
    dismiss(crew, passes, rights);
    source
}

/// Lets go a pool that nobody has used.
fn let_go<T: Drop>(pool: T) {
    let _pool = pool;
}
