//! A hold of the lock, under which one seat takes several turns.
ghost use Rattle.std.specs.Prelude.{◌≡◌};
ghost use Rattle.seat_lock.specs.History.{IsSeatTurn};

use crate::kept::{Kept, Op};
use crate::lock::SeatLock;
use crate::seat::Seat;
use crate::turning::turn_inside;
use std::marker::Model;
use std::sync::{MutexGuard, Wait};

/// A seat inside its lock's gate: while it lives, no other thread gets a turn. Contracts see what the seat knows.
///
/// The seat is in it, so the lock can't be held by who has only borrowed a seat. A thread that has a hold and asks the same
/// lock for another, or for a turn of another seat, waits for itself.
#[derive(Drop)]
pub struct Hold<'l, S: Kept, R: Wait> {
    rt: &'l R,
    lock: &'l SeatLock<S>,
    inside: MutexGuard<'l, ()>,
    seat: Seat<S>,
    ghost here: { seat.lock ≡ lock.now },
}

impl<'l, S: Kept, R: Wait> Model for Hold<'l, S, R> {
    ghost use Rattle.seat_lock.specs.History.{SeatView};

    ghost Value = { SeatView S.Entry S.Setting };

    ghost view = { λ h. h.seat };
}

impl<'l, S: Kept, R: Wait> Hold<'l, S, R> {
    /// The seat at its lock, inside this gate.
    pub(crate) fn of(
        rt: &'l R,
        lock: &'l SeatLock<S>,
        inside: MutexGuard<'l, ()>,
        seat: Seat<S>,
    ) -> Hold<'l, S, R>
        requires { seat.lock ≡ lock.now }
        ensures { result ≡ seat }
    {
        Hold {
            rt,
            lock,
            inside,
            seat,
        }
    }

    /// Runs the operation once, alone, as a turn of the seat.
    pub fn turn<O: Op<S>>(&mut self, op: O) -> O::Reply
        ensures { IsSeatTurn S.maker (O.means op) self.old result self.new }
    {
        turn_inside(self.rt, self.lock, &mut self.seat, op)
    }

    /// Lets the lock go, and gives the seat back.
    pub fn release(self) -> Seat<S>
        ensures { result ≡ self.entry }
    {
        let Hold { inside, seat, .. } = self;
        drop(inside);
        seat
    }
}
