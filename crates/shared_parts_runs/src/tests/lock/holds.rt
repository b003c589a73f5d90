//! Turns of two threads, several while a thread is inside.
ghost use Rattle.std.specs.Prelude.{◌≡◌, ◌++◌, [], ◌∷◌, IfOk, MatchBool, is_some, vec_len};
ghost use Rattle.seat_lock.specs.History.{IsSameSeat};
ghost use Rattle.shared_parts_runs.specs.SeatRow.{AreSeats};

use super::{Count, Tally, join_all};
use seat_lock::{Op, Seat, SeatLock, make};
use std::alloc::{AllocError, Global};
use std::process::Abort;
use std::sync::Wait;
use std::test::*;
use std::thread::{Threads, map_vec};

/// How many turns a hold has, or a row of turns.
const TURNS: u64 = 10;

/// How many holds each seat has, and as many rows of turns.
const HOLDS: usize = 100;

/// Counts one where there are fewer than so many, and answers how many there then are.
#[derive(Clone, Copy)]
struct CountTo {
    limit: usize,
}

impl Op<Tally> for CountTo {
    type Reply = Option<usize>;

    ghost means = { λ op name before seat reply after. MatchBool (is_some reply) (after ≡ before ++ seat ∷ []) (after ≡ before) };

    fn run(self, state: &mut Tally, seat: u64) -> Option<usize> {
        if state.marks.len() >= self.limit || state.marks.push(seat).is_err() {
            return None;
        }
        Some(state.marks.len())
    }
}

/// Takes turns of this seat as long as there are fewer than so many in all, but no more than so many, and answers what
/// those found.
fn counted_to<R: Wait>(
    rt: &R,
    alloc: Global,
    lock: &SeatLock<Tally>,
    seat: &mut Seat<Tally>,
    limit: usize,
    most: u64,
) -> Result<Vec<usize>, AllocError>
    requires { seat.old.lock ≡ lock.now }
    ensures { IsSameSeat seat.old seat.new }
{
    let mut found = Vec::with_capacity(alloc, most as usize)?;
    lock.take_turns(rt, seat, CountTo { limit }, most, &mut found);
    Ok(found)
}

/// Counts under one hold.
fn count_held<R: Wait>(rt: &R, lock: &SeatLock<Tally>, seat: Seat<Tally>) -> Seat<Tally>
    requires { seat.lock ≡ lock.now }
    ensures { IsSameSeat seat result }
{
    let mut hold = lock.hold(rt, seat);
    for _ in 0..TURNS {
        hold.turn(Count);
    }
    hold.release()
}

/// Counts under one hold, and then by one row of turns, again and again.
fn count_often<R: Wait>(
    rt: &R,
    alloc: Global,
    lock: &SeatLock<Tally>,
    seat: Seat<Tally>,
) -> Seat<Tally>
    requires { seat.lock ≡ lock.now }
    ensures { IsSameSeat seat result }
{
    let mut seat = seat;
    for _ in 0..HOLDS {
        seat = count_held(rt, lock, seat);
        let _found = counted_to(rt, alloc, lock, &mut seat, usize::MAX, TURNS).is_ok();
    }
    seat
}

/// Counts on each of these seats, in a thread of its own.
fn count_on_each<R: Threads + Wait + Sync>(
    rt: &R,
    alloc: Global,
    lock: &SeatLock<Tally>,
    seats: Vec<Seat<Tally>>,
) -> Result<Vec<Seat<Tally>>, AllocError>
    requires { AreSeats lock.now (vec_len seats) seats.items }
    ensures all { IfOk result (λ back. AreSeats lock.now (vec_len seats) back.items) }
    ensures len { IfOk result (λ back. vec_len back ≡ vec_len seats) }
{
    map_vec(
        rt,
        seats,
        &|seat: Seat<Tally>|
            requires { seat.lock ≡ lock.now }
            ensures { IsSameSeat seat result }
        { count_often(rt, alloc, lock, seat) },
    )
}

/// A tally in which nobody counted yet.
fn tally(alloc: Global) -> Tally
    ensures { result.marks.items ≡ [] }
{
    Tally {
        marks: Vec::new(alloc),
        name: 7,
    }
}

/// Who counted, in order, where two threads did.
fn counted<R: Threads + Wait + Sync>(rt: &R, alloc: Global) -> Option<Vec<u64>> {
    let (lock, seats) = make(alloc, tally(alloc), 2).ok()?;
    let seats = count_on_each(rt, alloc, &lock, seats).ok()?;
    let seat = join_all(&lock, seats);
    Some(lock.close(seat).marks)
}

/// Whether these marks are by one seat.
fn are_by_one(held: &[u64]) -> bool {
    let [first, rest @ ..] = held else {
        return false;
    };
    for by in rest {
        if by != first {
            return false;
        }
    }
    true
}

/// Whether the turns of each hold, and of each row, stand together.
fn stand_together(marks: &[u64]) -> bool {
    for held in marks.chunks(TURNS as usize) {
        if !are_by_one(held) {
            return false;
        }
    }
    true
}

// no contract says that the turns of a hold, or of a row, stand together
#[test]
fn nobody_takes_a_turn_within_a_hold(rt: HostRuntime) -> Result<(), Fail> {
    let marks = counted(&rt, rt.alloc()).ok_or("there is memory")?;
    assert!(rt; marks.len() as u64 == 4 * HOLDS as u64 * TURNS);
    assert!(rt; stand_together(marks.as_slice()));
    Ok(())
}

// five are to be counted: three, then the two that are left, and then none
#[test]
fn a_row_of_turns_ends_where_nothing_is_found(rt: HostRuntime) -> Result<(), Fail> {
    let alloc = rt.alloc();
    let (lock, mut seats) = make(alloc, tally(alloc), 1).ok().ok_or("there is memory")?;
    let seat = &mut seats[0];
    let first = counted_to(&rt, alloc, &lock, seat, 5, 3)?;
    let rest = counted_to(&rt, alloc, &lock, seat, 5, 10)?;
    let none = counted_to(&rt, alloc, &lock, seat, 5, 10)?;
    assert!(rt; first.as_slice() == &[1, 2, 3][..]);
    assert!(rt; rest.as_slice() == &[4, 5][..]);
    assert!(rt; none.is_empty());
    Ok(())
}
