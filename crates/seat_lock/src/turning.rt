//! The turns of a seat, once its thread is inside the lock's gate.
ghost use Rattle.std.specs.Prelude.{◌≡◌};
ghost use Rattle.seat_lock.specs.History.{IsSeatTurn};

use crate::kept::{Kept, Op};
use crate::lock::SeatLock;
use crate::seat::Seat;
use crate::steps::{draw, give, take};
use std::sync::Wait;

/// Runs the operation once, alone, as a turn of this seat, whose thread is inside.
// a call of its own would cost a turn in a hold a quarter more instructions
#[inline(always)]
pub fn turn_inside<S: Kept, R: Wait, O: Op<S>>(
    rt: &R,
    lock: &SeatLock<S>,
    seat: &mut Seat<S>,
    op: O,
) -> O::Reply
    requires { seat.old.lock ≡ lock.now }
    ensures turn { IsSeatTurn S.maker (O.means op) seat.old result seat.new }
    ensures lock { seat.new.lock ≡ seat.old.lock }
{
    let shared = &lock.table.shared;
    let ticket = draw(shared, &mut seat.token);
    let mut state = take(rt, shared, &mut seat.token, ticket);
    let reply = op.run(&mut state, seat.number);
    give(shared, &mut seat.token, state);
    reply
}
