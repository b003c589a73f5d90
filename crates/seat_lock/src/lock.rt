//! The lock: turns, joined seats, and the state back at the end.
ghost use Rattle.std.specs.Prelude.{◌≡◌, ◌≤◌, [], Some, vec_capacity, vec_len};
ghost use Rattle.seat_lock.specs.History.{AreSeatTurns, HasAll, IsJoin, IsSameSeat, IsSeatTurn, IsWholeHistory};

use crate::hold::Hold;
use crate::kept::{Kept, Op};
use crate::rule::LockTable;
use crate::seat::Seat;
use crate::steps::{catch_up, merge};
use crate::turning::turn_inside;
use std::marker::Model;
use std::sync::{Mutex, Wait};

/// A state that is changed by one operation at a time, in the order of tickets. Contracts see which lock it is.
///
/// Threads wait at the gate, as a `Mutex` lets them: its holder alone draws a ticket, which is served at once.
#[derive(Drop)]
pub struct SeatLock<S: Kept> {
    pub(crate) gate: Mutex<()>,
    pub(crate) table: LockTable<S>,
}

impl<S: Kept> Model for SeatLock<S> {
    ghost use Rattle.std.specs.Prelude.{◌≡◌};
    ghost use Rattle.atomic_table.specs.Seated.{TableId, table_id_coded};

    ghost Value = { TableId };

    ghost coded = { table_id_coded };

    ghost view = { λ l. l.table.shared.table_id };

    ghost invariant = { λ l. (l.table.shared.table_id.words ≡ 2) × (l.table.shared.table_id.slots ≡ 1) };
}

impl<S: Kept> SeatLock<S> {
    /// Waits until no other thread holds the lock, and holds it with this seat.
    pub fn hold<'l, R: Wait>(&'l self, rt: &'l R, seat: Seat<S>) -> Hold<'l, S, R>
        requires { seat.lock ≡ self.now }
        ensures { result ≡ seat }
    {
        let inside = self.gate.lock(rt);
        Hold::of(rt, self, inside, seat)
    }

    /// Waits for the seat's turn, and runs the operation once, alone.
    pub fn turn<R: Wait, O: Op<S>>(&self, rt: &R, seat: &mut Seat<S>, op: O) -> O::Reply
        requires { seat.old.lock ≡ self.now }
        ensures { IsSeatTurn S.maker (O.means op) seat.old result seat.new }
    {
        let _inside = self.gate.lock(rt);
        turn_inside(rt, self, seat, op)
    }

    /// Waits once, and takes turns with the same operation, one behind the other, until one answers nothing or so many
    /// have answered something.
    pub fn take_turns<R: Wait, T, O: Op<S, Reply = Option<T>> + Copy>(
        &self,
        rt: &R,
        seat: &mut Seat<S>,
        op: O,
        most: u64,
        found: &mut Vec<T>,
    )
        requires lock { seat.old.lock ≡ self.now }
        requires none { found.old.items ≡ [] }
        requires room { most ≤ vec_capacity found.old }
        ensures turns { AreSeatTurns S.maker (O.means op) most seat.old found.new.items seat.new }
        ensures few { vec_len found.new ≤ most }
        ensures same { IsSameSeat seat.old seat.new }
    {
        let _inside = self.gate.lock(rt);
        while (found.len() as u64) < most {
            let Some(item) = turn_inside(rt, self, seat, op) else {
                return;
            };
            found.push_reserved(item);
        }
    }

    /// Joins the right seat into the left one, which then knows what both have seen.
    pub fn join(&self, left: Seat<S>, right: Seat<S>) -> Seat<S>
        requires left { left.lock ≡ self.now }
        requires right { right.lock ≡ self.now }
        ensures { IsJoin left right result }
    {
        let Seat { number, mut token } = left;
        let Seat {
            number: _,
            token: other,
        } = right;
        merge(&self.table.shared, &mut token, other);
        catch_up(&self.table.shared, &mut token);
        Seat { number, token }
    }

    /// Takes the lock apart, and gives back the state. The seat is the lock's only one, or has all others.
    pub fn close(self, seat: Seat<S>) -> S
        requires lock { seat.lock ≡ self }
        requires all { HasAll seat }
        ensures history { IsWholeHistory S.maker seat (S.stands result) }
        ensures setting { seat.setting ≡ Some (S.setting result) }
    {
        let SeatLock { gate: _, table } = self;
        let Seat { number: _, token } = seat;
        let mut closed = table.close_with(token);
        let found = closed.take(0);
        closed.free();
        match found {
            Some(state) => state,
            None => unreachable!(),
        }
    }
}
