//! How a lock is made, with all of its seats.
ghost use Rattle.std.specs.Prelude.{◌≡◌, ◌+◌, ◌-◌, ◌<◌, ◌≤◌, [], ◌∷◌, None, IsSome, IfOk, IfErr, vec_len, vec_capacity};
ghost use Rattle.seat_lock.specs.History.{IsNewLock};
ghost use Rattle.seat_lock.specs.Rule.{first_view};
ghost use Rattle.seat_lock.specs.Steps.{in_phase};
ghost use Rattle.seat_lock.specs.Making.{CanAdd, Founds, IsFounder, founder, next_seat, others};

use crate::kept::Kept;
use crate::lock::SeatLock;
use crate::opened::Opened;
use crate::rule::{Add, Found, LockShared, LockTable, LockToken};
use crate::seat::Seat;
use crate::steps::{TICKET, give};
use crate::view::Phase;
use atomic_table::Table;
use std::alloc::{AllocError, Global};
use std::sync::Mutex;

/// Makes a lock over a state without entries, and its seats, of which there are 1 to 64, numbered from 0.
/// For want of memory the state comes back.
pub fn make<S: Kept>(alloc: Global, state: S, seats: u64) -> Result<(SeatLock<S>, Vec<Seat<S>>), S>
    requires few { (0 < seats) × (seats ≤ 64) }
    requires empty { S.stands state ≡ [] }
    ensures made { IfOk result (λ r. IsNewLock r.0 (S.setting state) seats r.1.items) }
    ensures back { IfErr result (λ s. s ≡ state) }
{
    let Ok(mut all) = Vec::with_capacity(alloc, seats as usize) else {
        return Err(state);
    };
    let about = Opened { state, seats };
    let laid = lay(alloc, &about);
    let Opened { state, seats } = about;
    let Ok((table, mut token)) = laid else {
        return Err(state);
    };
    found(&table.shared, &mut token);
    add_others(&table.shared, &mut token, seats, &mut all);
    give(&table.shared, &mut token, state);
    all.insert(0, Seat { number: 0, token }).unwrap();
    let gate = Mutex::new(());
    Ok((SeatLock { gate, table }, all))
}

/// Makes the two words and the empty slot. The first ticket is out, with the first seat.
fn lay<S: Kept>(
    alloc: Global,
    about: &Opened<S>,
) -> Result<(LockTable<S>, LockToken<S>), AllocError>
    requires { (0 < about.now.seats) × (about.now.seats ≤ 64) }
    ensures table { IfOk result
        (λ r. (r.0.shared.table_id.words ≡ 2) × (r.0.shared.table_id.slots ≡ 1)
        × (r.1.table_id ≡ r.0.shared.table_id)) }
    ensures first { IfOk result (λ r. r.1.me ≡ (first_view (S.setting about.now.state) about.now.seats, [])) }
{
    Table::vacant(alloc, &[1, 0], 1, about)
}

/// Makes all seats but the first.
fn add_others<S: Kept>(
    shared: &LockShared<S>,
    token: &mut LockToken<S>,
    seats: u64,
    all: &mut Vec<Seat<S>>,
)
    requires table { (token.old.table_id ≡ shared.now.table_id) × (shared.now.table_id.words ≡ 2) }
    requires first { IsFounder seats token.old.me.0 }
    requires room { (vec_len all.old ≡ 0) × (all.old.items ≡ []) × (seats ≤ vec_capacity all.old)
        × (0 < seats) }
    ensures token { (token.new.table_id ≡ token.old.table_id) × (token.new.id ≡ token.old.id) }
    ensures first { token.new.me ≡ (in_phase token.old.me.0 (Phase.Makes seats), token.old.me.1) }
    ensures others { all.new.items ≡ others token.old.table_id token.old.me.0 (seats - 1) }
    ensures room { vec_len all.new < vec_capacity all.new }
{
    for number in 1..seats {
        let other = add_seat(shared, token);
        all.push_reserved(Seat {
            number,
            token: other,
        });
    }
}

/// Takes the empty slot, before there is a state.
fn found<S: Kept>(shared: &LockShared<S>, token: &mut LockToken<S>)
    requires table { (token.old.table_id ≡ shared.now.table_id) × (shared.now.table_id.words ≡ 2) }
    requires first { (token.old.me.0.phase ≡ Phase.Empty) × (token.old.me.1 ≡ [])
        × IsSome token.old.me.0.setting }
    ensures token { (token.new.table_id ≡ token.old.table_id) × (token.new.id ≡ token.old.id) }
    ensures founded { Founds token.old.me token.new.me }
{
    shared.load::<Found<S>>(token, TICKET);
}

/// Makes one more seat.
fn add_seat<S: Kept>(shared: &LockShared<S>, token: &mut LockToken<S>) -> LockToken<S>
    requires table { (token.old.table_id ≡ shared.now.table_id) × (shared.now.table_id.words ≡ 2) }
    requires makes { CanAdd token.old.me.0 }
    ensures token { (token.new.table_id ≡ token.old.table_id) × (token.new.id ≡ token.old.id)
        × (result.table_id ≡ token.old.table_id) }
    ensures first { token.new.me ≡ (founder token.old.me.0, token.old.me.1) }
    ensures next { result.me ≡ (next_seat token.old.me.0, []) }
{
    shared.split_seat::<Add<S>>(token)
}
