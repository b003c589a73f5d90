//! The single atomic steps that the lock's calls are made of.
ghost use Rattle.std.specs.Prelude.{◌≡◌, [], ◌∷◌, Some, IsSome};
ghost use Rattle.seat_lock.specs.Steps.{Draws, LooksForTurn, TakesState, TakesStateOut, Leaves, CatchesUp, IsResting, IsAware, CanLook, HasTicket, CanGive, CanLeave, after_leave, both};

use crate::kept::Kept;
use crate::rule::{CatchUp, Draw, Leave, LockShared, LockToken, Look, Merge};
use crate::view::Phase;
use std::sync::Wait;
use std::thread;

/// The number of the next ticket.
pub const TICKET: usize = 0;

/// The ticket whose turn it is.
const SERVING: usize = 1;

/// Where the state lies.
const STATE: usize = 0;

/// Draws a ticket.
pub fn draw<S: Kept>(shared: &LockShared<S>, token: &mut LockToken<S>) -> u64
    requires table { (token.old.table_id ≡ shared.now.table_id) × (shared.now.table_id.words ≡ 2) }
    requires idle { IsResting S.maker token.old.me }
    ensures token { (token.new.table_id ≡ token.old.table_id) × (token.new.id ≡ token.old.id) }
    ensures drawn { Draws token.old.me result token.new.me }
{
    shared.fetch_add::<Draw<S>>(token, TICKET, 1)
}

/// Looks once whose turn it is, and takes the state at the seat's own.
pub fn look<S: Kept>(shared: &LockShared<S>, token: &mut LockToken<S>) -> u64
    requires table { (token.old.table_id ≡ shared.now.table_id) × (shared.now.table_id.words ≡ 2) }
    requires waits { CanLook token.old.me }
    ensures token { (token.new.table_id ≡ token.old.table_id) × (token.new.id ≡ token.old.id) }
    ensures looked { LooksForTurn S.stands S.setting token.old.me result token.new.me }
{
    shared.load::<Look<S>>(token, SERVING)
}

/// Looks until it is the turn of the seat's ticket.
fn await_turn<S: Kept, R: Wait>(
    rt: &R,
    shared: &LockShared<S>,
    token: &mut LockToken<S>,
    ticket: u64,
)
    requires table { (token.old.table_id ≡ shared.now.table_id) × (shared.now.table_id.words ≡ 2) }
    requires ticket { HasTicket ticket token.old.me }
    ensures token { (token.new.table_id ≡ token.old.table_id) × (token.new.id ≡ token.old.id) }
    ensures took { TakesState S.stands S.setting token.old.me token.new.me }
{
    for _ in rt.forever() {
        if look(shared, token) == ticket {
            return;
        }
        thread::yield_now();
    }
    unreachable!()
}

/// Waits for the seat's turn, and moves the state out of its slot.
pub fn take<S: Kept, R: Wait>(
    rt: &R,
    shared: &LockShared<S>,
    token: &mut LockToken<S>,
    ticket: u64,
) -> S
    requires table { (token.old.table_id ≡ shared.now.table_id) × (shared.now.table_id.words ≡ 2) }
    requires ticket { HasTicket ticket token.old.me }
    ensures token { (token.new.table_id ≡ token.old.table_id) × (token.new.id ≡ token.old.id) }
    ensures took { TakesStateOut S.stands S.setting token.old.me result token.new.me }
{
    await_turn(rt, shared, token, ticket);
    match shared.exchange(token, STATE, None) {
        Some(state) => state,
        None => unreachable!(),
    }
}

/// Moves the state back into its slot, and ends the turn.
pub fn give<S: Kept>(shared: &LockShared<S>, token: &mut LockToken<S>, state: S)
    requires table { (token.old.table_id ≡ shared.now.table_id) × (shared.now.table_id.words ≡ 2)
        × (shared.now.table_id.slots ≡ 1) }
    requires gives { CanGive S.stands S.maker S.setting token.old.me state }
    ensures token { (token.new.table_id ≡ token.old.table_id) × (token.new.id ≡ token.old.id) }
    ensures gave { token.new.me ≡ (after_leave S.stands token.old.me.0 ((0, Some state) ∷ []), []) }
    ensures aware { IsAware S.maker token.new.me.0 }
{
    match shared.exchange(token, STATE, Some(state)) {
        None => {}
        Some(_) => unreachable!(),
    }
    leave(shared, token);
}

/// Gives the state back and serves the next ticket.
pub fn leave<S: Kept>(shared: &LockShared<S>, token: &mut LockToken<S>)
    requires table { (token.old.table_id ≡ shared.now.table_id) × (shared.now.table_id.words ≡ 2)
        × (shared.now.table_id.slots ≡ 1) }
    requires holds { CanLeave S.stands S.maker S.setting token.old.me }
    ensures token { (token.new.table_id ≡ token.old.table_id) × (token.new.id ≡ token.old.id) }
    ensures left { Leaves S.stands S.maker token.old.me token.new.me }
{
    shared.fetch_add::<Leave<S>>(token, SERVING, 1);
}

/// Learns the history so far.
pub fn catch_up<S: Kept>(shared: &LockShared<S>, token: &mut LockToken<S>)
    requires table { (token.old.table_id ≡ shared.now.table_id) × (shared.now.table_id.words ≡ 2) }
    requires idle { (token.old.me.0.phase ≡ Phase.Idle) × (token.old.me.1 ≡ [])
        × IsSome token.old.me.0.setting }
    ensures token { (token.new.table_id ≡ token.old.table_id) × (token.new.id ≡ token.old.id) }
    ensures further { CatchesUp S.maker token.old.me token.new.me }
{
    shared.load::<CatchUp<S>>(token, TICKET);
}

/// Takes in what another seat leaves.
pub fn merge<S: Kept>(shared: &LockShared<S>, token: &mut LockToken<S>, other: LockToken<S>)
    requires table { (token.old.table_id ≡ shared.now.table_id)
        × (other.table_id ≡ shared.now.table_id) × (shared.now.table_id.words ≡ 2) }
    requires idle { IsResting S.maker token.old.me × IsResting S.maker other.me }
    ensures token { (token.new.table_id ≡ token.old.table_id) × (token.new.id ≡ token.old.id) }
    ensures both { token.new.me ≡ (both token.old.me.0 other.me.0, []) }
{
    shared.join_seat::<Merge<S>>(token, other);
}
