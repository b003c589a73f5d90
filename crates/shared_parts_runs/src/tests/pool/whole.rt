//! A round of a pool from its making to its end.

ghost use Rattle.std.specs.Prelude.{◌≡◌, ◌+◌, ◌<◌, ◌≤◌, IfOk, vec_len};
ghost use Rattle.ticket_queue.specs.Passes.{IsAt, MaySend};
ghost use Rattle.shared_parts_runs.specs.Crews.{ArePasses, AreReceivers, AreWorkers, pass_shares, worker_shares};

use delivery_pool::{Message, Pool, Sender, Spender, Worker, run_round};
use std::alloc::{AllocError, Global};
use std::collections::VecDeque;
use std::sync::Wait;
use std::thread::Threads;
use ticket_queue::QueuePass;

/// What a round begins with: how many messages its pool has room for, the tickets that are offered, and what spends them:
/// one for each worker, and one for the sender, which spends what is left in the end too.
#[derive(Drop)]
pub struct Setup<T: Drop, S: Drop> {
    pub room: u64,
    pub tickets: VecDeque<T>,
    pub crew: Vec<S>,
    pub sender: S,
}

/// What spent tickets as a worker, and how many that worker counted.
#[derive(Drop)]
pub struct Spent<S: Drop> {
    pub spender: S,
    pub count: u64,
}

/// What a round ended with: what the workers spent and what the sender spent, and how many tickets nobody had received.
#[derive(Drop)]
pub struct Ended<S: Drop> {
    pub crew: Vec<Spent<S>>,
    pub sender: S,
    pub left: u64,
}

/// What a round gives back: the sender's pass and the workers' passes, and what spent tickets.
#[derive(Drop)]
struct Back<T: Drop, S: Drop> {
    first: QueuePass<Message<T>>,
    others: Vec<QueuePass<Message<T>>>,
    crew: Vec<Spent<S>>,
    sender: S,
}

/// Makes a pool, runs a round of it, and drains it.
pub fn ran<T: Drop + Send, S: Spender<T> + Drop + Send, R: Threads + Wait + Sync>(
    rt: &R,
    alloc: Global,
    setup: Setup<T, S>,
) -> Result<Ended<S>, AllocError>
    requires few { (0 < vec_len setup.crew) × (vec_len setup.crew ≤ 16) }
    requires room { (0 < setup.room) × (setup.room ≤ 4096) }
{
    let (pool, first, others) = made(alloc, setup.crew.len() as u64, setup.room)?;
    let Back {
        first,
        others,
        crew,
        mut sender,
    } = round_at(rt, alloc, &pool, first, others, setup)?;
    let left = drained(rt, pool, first, others, &mut sender)?;
    Ok(Ended { crew, sender, left })
}

/// Runs a round of a pool with these passes.
fn round_at<T: Drop + Send, S: Spender<T> + Drop + Send, R: Threads + Wait + Sync>(
    rt: &R,
    alloc: Global,
    pool: &Pool<T>,
    first: QueuePass<Message<T>>,
    others: Vec<QueuePass<Message<T>>>,
    setup: Setup<T, S>,
) -> Result<Back<T, S>, AllocError>
    requires as_many { vec_len others ≡ vec_len setup.crew }
    requires first { IsAt pool.now.queue first × MaySend first }
    requires others { AreReceivers pool.now.queue others.items }
    ensures first { IfOk result (λ back. IsAt pool.now.queue back.first) }
    ensures others { IfOk result (λ back. ArePasses pool.now.queue back.others.items) }
    ensures shares { IfOk result
        (λ back. back.first.share + pass_shares back.others.items ≡ first.share + pass_shares others.items) }
{
    let Setup {
        tickets,
        crew,
        sender,
        ..
    } = setup;
    let mut crew = crew_at(alloc, pool, others, crew)?;
    let mut sender = Sender {
        pool,
        pass: first,
        tickets,
        spender: sender,
    };
    run_round(rt, &mut sender, crew.as_mut_slice());
    let Sender { pass, spender, .. } = sender;
    let (others, crew) = come_back(alloc, pool, crew)?;
    Ok(Back {
        first: pass,
        others,
        crew,
        sender: spender,
    })
}

/// A pool, the sender's pass, and the workers' passes.
pub fn made<T: Drop>(
    alloc: Global,
    workers: u64,
    room: u64,
) -> Result<(Pool<T>, QueuePass<Message<T>>, Vec<QueuePass<Message<T>>>), AllocError>
    requires few { (0 < workers) × (workers ≤ 16) }
    requires room { (0 < room) × (room ≤ 4096) }
    ensures first { IfOk result (λ made. IsAt made.0.queue made.1 × MaySend made.1) }
    ensures others { IfOk result (λ made. AreReceivers made.0.queue made.2.items) }
    ensures shares { IfOk result (λ made. made.1.share + pass_shares made.2.items ≡ 1024) }
    ensures len { IfOk result (λ made. vec_len made.2 ≡ workers) }
{
    let (pool, mut passes) = Pool::make(alloc, workers, room)?;
    let first = passes.remove(0);
    Ok((pool, first, passes))
}

/// Drains a pool with all of its passes.
pub fn drained<T: Drop, S: Spender<T>, R: Wait>(
    rt: &R,
    pool: Pool<T>,
    first: QueuePass<Message<T>>,
    mut others: Vec<QueuePass<Message<T>>>,
    spender: &mut S,
) -> Result<u64, AllocError>
    requires first { IsAt pool.queue first }
    requires others { ArePasses pool.queue others.items }
    requires shares { first.share + pass_shares others.items ≡ 1024 }
{
    others.push(first)?;
    Ok(pool.drain(rt, others, spender))
}

/// A worker for each of these passes.
fn crew_at<'p, T: Drop, S: Drop>(
    alloc: Global,
    pool: &'p Pool<T>,
    mut passes: Vec<QueuePass<Message<T>>>,
    mut spenders: Vec<S>,
) -> Result<Vec<Worker<'p, T, S>>, AllocError>
    requires as_many { vec_len passes ≡ vec_len spenders }
    requires receivers { AreReceivers pool.now.queue passes.items }
    ensures workers { IfOk result (λ crew. AreWorkers pool.now.queue crew.items) }
    ensures shares { IfOk result (λ crew. worker_shares crew.items ≡ pass_shares passes.items) }
{
    let mut crew = Vec::new(alloc);
    while let Some(pass) = passes.pop() {
        let spender = spenders.pop().unwrap();
        crew.push(Worker {
            pool,
            pass,
            spender,
            count: 0,
        })?;
    }
    Ok(crew)
}

/// The workers' passes again, and what the workers spent.
fn come_back<'p, T: Drop, S: Drop>(
    alloc: Global,
    pool: &Pool<T>,
    mut crew: Vec<Worker<'p, T, S>>,
) -> Result<(Vec<QueuePass<Message<T>>>, Vec<Spent<S>>), AllocError>
    requires workers { AreWorkers pool.now.queue crew.items }
    ensures at { IfOk result (λ back. ArePasses pool.now.queue back.0.items) }
    ensures shares { IfOk result (λ back. pass_shares back.0.items ≡ worker_shares crew.entry.items) }
{
    let mut passes = Vec::new(alloc);
    let mut all = Vec::new(alloc);
    while let Some(worker) = crew.pop() {
        let Worker {
            pass,
            spender,
            count,
            ..
        } = worker;
        passes.push(pass)?;
        all.push(Spent { spender, count })?;
    }
    Ok((passes, all))
}
