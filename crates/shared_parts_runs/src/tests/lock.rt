//! A tally under the lock, kept by one seat, by four and by sixty-four.
ghost use Rattle.std.specs.Prelude.{◌≡◌, ◌<◌, ◌≤◌, ◌++◌, [], ◌∷◌, MatchBool, length, vec_len};
ghost use Rattle.seat_lock.specs.History.{HasAll, IsSameSeat};
ghost use Rattle.shared_parts_runs.specs.SeatRow.{AreSeats};

mod holds;

use seat_lock::{Kept, Op, Seat, SeatLock, make};
use std::alloc::Global;
use std::process::Abort;
use std::sync::Wait;
use std::test::*;
use std::thread::{Threads, for_each_mut};

/// Who counted, in order.
#[derive(Drop)]
struct Tally {
    marks: Vec<u64>,
    name: u64,
}

impl Kept for Tally {
    type Entry = u64;

    type Setting = u64;

    ghost stands = { λ t. t.marks.items };

    ghost maker = { λ e. e };

    ghost setting = { λ t. t.name };
}

/// Counts one, and answers whether there was memory for it.
#[derive(Drop)]
struct Count;

impl Op<Tally> for Count {
    type Reply = bool;

    ghost means = { λ op name before seat reply after. MatchBool reply (after ≡ before ++ seat ∷ []) (after ≡ before) };

    fn run(self, state: &mut Tally, seat: u64) -> bool {
        state.marks.push(seat).is_ok()
    }
}

/// Counts so many times.
fn count_up<R: Wait>(rt: &R, lock: &SeatLock<Tally>, seat: &mut Seat<Tally>, times: u64)
    requires { seat.old.lock ≡ lock.now }
    ensures { IsSameSeat seat.old seat.new }
{
    for _ in 0..times {
        lock.turn(rt, seat, Count);
    }
}

/// Joins all seats of a lock.
fn join_all<S: Kept>(lock: &SeatLock<S>, mut seats: Vec<Seat<S>>) -> Seat<S>
    requires all { AreSeats lock.now (vec_len seats) seats.items }
    requires some { 0 < vec_len seats }
    ensures { (result.lock ≡ lock.now) × HasAll result }
{
    let mut all = seats.pop().unwrap();
    while let Some(next) = seats.pop() {
        all = lock.join(next, all);
    }
    all
}

/// Counts in up to four threads, so many times on each of these seats.
fn count_on_each<R: Threads + Wait + Sync>(
    rt: &R,
    lock: &SeatLock<Tally>,
    seats: &mut [Seat<Tally>],
    times: u64,
)
    requires { AreSeats lock.now (length seats.old) seats.old }
    ensures all { AreSeats lock.now (length seats.old) seats.new }
    ensures len { length seats.new ≡ length seats.old }
{
    for_each_mut(
        rt,
        seats,
        4,
        &|_, seat: &mut Seat<Tally>|
            requires { seat.now.lock ≡ lock.now }
            ensures { IsSameSeat seat.entry.now seat.exit.now }
        { count_up(rt, lock, seat, times) },
    );
}

/// Counts in up to four threads, so many times on each seat, and answers who counted when.
fn counted<R: Threads + Wait + Sync>(
    rt: &R,
    alloc: Global,
    count: u64,
    times: u64,
) -> Option<Vec<u64>>
    requires { (0 < count) × (count ≤ 64) }
{
    let state = Tally {
        marks: Vec::new(alloc),
        name: 7,
    };
    let (lock, mut seats) = make(alloc, state, count).ok()?;
    count_on_each(rt, &lock, seats.as_mut_slice(), times);
    let seat = join_all(&lock, seats);
    Some(lock.close(seat).marks)
}

/// How often this seat counted.
fn count_of(marks: &[u64], seat: u64) -> u64 {
    let mut count = 0u64;
    for by in marks {
        if *by == seat {
            count = count.saturating_add(1);
        }
    }
    count
}

/// Whether of so many seats each has as many marks as its turns, and there are no others.
fn counts_its_own<R: Threads + Wait + Sync>(
    rt: &R,
    alloc: Global,
    seats: u64,
    times: u64,
) -> Option<bool>
    requires { (0 < seats) × (seats ≤ 64) }
{
    let marks = counted(rt, alloc, seats, times)?;
    let mut is_so = marks.len() as u64 == seats.saturating_mul(times);
    for seat in 0..seats {
        is_so = is_so && count_of(marks.as_slice(), seat) == times;
    }
    Some(is_so)
}

#[test]
fn each_seat_counts_its_own(rt: HostRuntime) {
    assert!(rt; counts_its_own(&rt, rt.alloc(), 1, 1000) == Some(true));
    assert!(rt; counts_its_own(&rt, rt.alloc(), 4, 1000) == Some(true));
    assert!(rt; counts_its_own(&rt, rt.alloc(), 64, 20) == Some(true));
}
