//! A thread's right to take turns at one lock.
ghost use Rattle.std.specs.Prelude.{◌≡◌};

use crate::kept::Kept;
use crate::rule::LockToken;
use std::marker::Model;

/// One of a lock's seats. It can't be copied. Contracts see what it knows.
#[derive(Drop)]
pub struct Seat<S: Kept> {
    pub(crate) number: u64,
    pub(crate) token: LockToken<S>,
}

impl<S: Kept> Model for Seat<S> {
    ghost use Rattle.std.specs.Prelude.{◌≡◌};
    ghost use Rattle.seat_lock.specs.History.{SeatView};
    ghost use Rattle.seat_lock.specs.Rule.{seat_view};
    ghost use Rattle.seat_lock.specs.Steps.{IsResting};

    ghost Value = { SeatView S.Entry S.Setting };

    ghost view = { λ s. seat_view s.token.table_id s.token.me.0 };

    ghost invariant = { λ s. (s.number ≡ s.token.me.0.number) × IsResting S.maker s.token.me };
}

impl<S: Kept> Seat<S> {
    /// Which of its lock's seats it is, counted from 0.
    pub fn number(&self) -> u64
        ensures { result ≡ self.now.number }
    {
        self.number
    }
}
