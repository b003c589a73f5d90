//! The lock's rule, and the kinds of step over it.

use crate::kept::Kept;
use crate::opened::Opened;
use crate::view::View;
use atomic_table::{Join, Play, Shared, Split, Table, TableRule};
use std::alloc::Global;
use std::marker::PhantomData;

/// What a thread steps with: a token of no bytes.
pub type LockToken<S> = atomic_table::Seat<
    Option<S>,
    View<<S as Kept>::Entry, <S as Kept>::Setting>,
>;

/// The two words, `ticket` and `serving`, and the slot with the state.
pub type LockShared<S> = Shared<
    Option<S>,
    View<<S as Kept>::Entry, <S as Kept>::Setting>,
    Opened<S>,
    LockRule<S>,
>;

/// The table itself, with its memory.
pub type LockTable<S> = Table<
    Option<S>,
    View<<S as Kept>::Entry, <S as Kept>::Setting>,
    Opened<S>,
    LockRule<S>,
    Global,
>;

/// The rule of a lock over an S.
pub struct LockRule<S: Kept> {
    of: PhantomData<S>,
}

impl<S: Kept> TableRule<Option<S>, View<S::Entry, S::Setting>, Opened<S>> for LockRule<S> {
    ghost use Rattle.seat_lock.specs.Rule.{KeepsLockRule, first_view};

    ghost holds = { λ key s. KeepsLockRule S.stands S.maker S.setting key s };

    ghost first = { λ key. first_view (S.setting key.state) key.seats };
}

/// The step that draws a ticket.
pub struct Draw<S: Kept> {
    of: PhantomData<S>,
}

impl<S: Kept> Play<Option<S>, View<S::Entry, S::Setting>> for Draw<S> {
    ghost use Rattle.seat_lock.specs.Steps.{Draws};

    ghost then = { λ s v found w. Draws v found w };
}

/// The step that looks whose turn it is, and takes the state at the seat's own.
pub struct Look<S: Kept> {
    of: PhantomData<S>,
}

impl<S: Kept> Play<Option<S>, View<S::Entry, S::Setting>> for Look<S> {
    ghost use Rattle.seat_lock.specs.Steps.{LooksForTurn};

    ghost then = { λ s v found w. LooksForTurn S.stands S.setting v found w };
}

/// The step that gives the state back and serves the next ticket.
pub struct Leave<S: Kept> {
    of: PhantomData<S>,
}

impl<S: Kept> Play<Option<S>, View<S::Entry, S::Setting>> for Leave<S> {
    ghost use Rattle.seat_lock.specs.Steps.{Leaves};

    ghost then = { λ s v found w. Leaves S.stands S.maker v w };
}

/// The step by which a seat learns the history so far.
pub struct CatchUp<S: Kept> {
    of: PhantomData<S>,
}

impl<S: Kept> Play<Option<S>, View<S::Entry, S::Setting>> for CatchUp<S> {
    ghost use Rattle.seat_lock.specs.Steps.{CatchesUp};

    ghost then = { λ s v found w. CatchesUp S.maker v w };
}

/// The step by which the first seat takes the empty slot.
pub struct Found<S: Kept> {
    of: PhantomData<S>,
}

impl<S: Kept> Play<Option<S>, View<S::Entry, S::Setting>> for Found<S> {
    ghost use Rattle.seat_lock.specs.Making.{Founds};

    ghost then = { λ s v found w. Founds v w };
}

/// The step by which the first seat makes another.
pub struct Add<S: Kept> {
    of: PhantomData<S>,
}

impl<S: Kept> Split<View<S::Entry, S::Setting>> for Add<S> {
    ghost use Rattle.seat_lock.specs.Making.{founder, next_seat};

    ghost left = { founder };

    ghost right = { next_seat };
}

/// The step by which a seat takes in what another leaves.
pub struct Merge<S: Kept> {
    of: PhantomData<S>,
}

impl<S: Kept> Join<View<S::Entry, S::Setting>> for Merge<S> {
    ghost use Rattle.seat_lock.specs.Steps.{both};
    ghost use Rattle.seat_lock.specs.Rule.{spent_view};

    ghost both = { both };

    ghost spent = { spent_view };
}
