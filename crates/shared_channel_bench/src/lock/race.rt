//! The same turns under seat_lock and under std's Mutex.
ghost use Rattle.std.specs.Prelude.{◌≡◌, ◌<◌, ◌≤◌};
ghost use Rattle.seat_lock.specs.History.{IsSameSeat};

use super::counter::{Counter, Raise};
use seat_lock::{Seat, SeatLock, make};
use std::io;
use std::sync::{Mutex, Wait};
use std::thread::{Threads, for_each_mut};
use std::time::{Clock, Instant};

/// What both counted, and how many nanoseconds they took.
#[derive(Drop)]
pub struct Race {
    pub by_seat: u64,
    pub by_mutex: u64,
    pub seat: u128,
    pub mutex: u128,
}

fn raise_on_seat<R: Wait>(rt: &R, lock: &SeatLock<Counter>, seat: &mut Seat<Counter>, turns: u64)
    requires { seat.old.lock ≡ lock.now }
    ensures { IsSameSeat seat.old seat.new }
{
    for _ in 0..turns {
        lock.turn(rt, seat, Raise { by: 1 });
    }
}

/// Ten turns under one hold of the lock.
fn raise_held<R: Wait>(rt: &R, lock: &SeatLock<Counter>, seat: Seat<Counter>) -> Seat<Counter>
    requires { seat.lock ≡ lock.now }
    ensures { IsSameSeat seat result }
{
    let mut hold = lock.hold(rt, seat);
    for _ in 0..10u64 {
        hold.turn(Raise { by: 1 });
    }
    hold.release()
}

fn raise_in_holds<R: Wait>(rt: &R, lock: &SeatLock<Counter>, seat: Seat<Counter>, turns: u64)
    requires { seat.lock ≡ lock.now }
{
    let mut seat = seat;
    for _ in 0..turns / 10 {
        seat = raise_held(rt, lock, seat);
    }
}

fn raise_on_mutex<R: Wait>(rt: &R, mutex: &Mutex<u64>, turns: u64) {
    for _ in 0..turns {
        let mut value = mutex.lock(rt);
        *value = value.wrapping_add(1);
    }
}

/// So many turns in each of so many threads, first under the one and then under the other. None for want of memory.
pub fn run_both<R: Threads + Wait + Sync + Clock + AllocGlobal>(
    rt: &R,
    threads: u64,
    turns: u64,
) -> io::Result<Option<Race>>
    requires { (0 < threads) × (threads ≤ 64) }
{
    let Ok((lock, mut seats)) = make(rt.alloc(), Counter { value: 0 }, threads) else {
        return Ok(None);
    };
    let shared = &lock;
    let start = Instant::now(rt)?;
    for_each_mut(
        rt,
        seats.as_mut_slice(),
        threads as usize,
        &|_, seat: &mut Seat<Counter>|
            requires { seat.now.lock ≡ shared.now }
            ensures { IsSameSeat seat.entry.now seat.exit.now }
        { raise_on_seat(rt, shared, seat, turns) },
    );
    let seat = start.elapsed(rt)?.as_nanos();
    let by_seat = lock.turn(rt, &mut seats[0], Raise { by: 0 });
    let counter = Mutex::new(0u64);
    let start = Instant::now(rt)?;
    for_each_mut(
        rt,
        seats.as_mut_slice(),
        threads as usize,
        &|_, _: &mut Seat<Counter>| { raise_on_mutex(rt, &counter, turns) },
    );
    let mutex = start.elapsed(rt)?.as_nanos();
    let by_mutex = *counter.lock(rt);
    Ok(Some(Race {
        by_seat,
        by_mutex,
        seat,
        mutex,
    }))
}

/// So many turns under seat_lock, in this thread.
pub fn alone_on_seat<R: Wait + AllocGlobal>(rt: &R, turns: u64) -> bool {
    let Ok((lock, mut seats)) = make(rt.alloc(), Counter { value: 0 }, 1) else {
        return false;
    };
    raise_on_seat(rt, &lock, &mut seats[0], turns);
    true
}

/// So many turns under seat_lock, ten in each hold, in this thread.
pub fn alone_held<R: Wait + AllocGlobal>(rt: &R, turns: u64) -> bool {
    let Ok((lock, mut seats)) = make(rt.alloc(), Counter { value: 0 }, 1) else {
        return false;
    };
    raise_in_holds(rt, &lock, seats.remove(0), turns);
    true
}

/// So many turns under std's Mutex, in this thread.
pub fn alone_on_mutex<R: Wait>(rt: &R, turns: u64) {
    raise_on_mutex(rt, &Mutex::new(0), turns);
}
