//! The attempts that aren't in the map yet, in the order in which they began.
ghost use Rattle.std.specs.Prelude.{◌≡◌};
ghost use Rattle.leg_index.specs.Flights.{AreDistinct, FindsFresh, Loses, front_leg, leg_in_row};

use std::collections::VecDeque;
use timeout_queue::Key;

/// An attempt that isn't in the map yet.
#[derive(Clone, Copy)]
pub(crate) struct Fresh {
    pub(crate) id: u16,
    pub(crate) leg: Key,
}

// The leg of the first attempt, if that has the identifier.
#[inline(always)]
pub(crate) fn front_leg(fresh: &VecDeque<Fresh>, id: u16) -> Option<Key>
    ensures { result ≡ front_leg id fresh.now.items }
{
    match fresh.front() {
        Some(first) => {
            if id == first.id {
                Some(first.leg)
            } else {
                None
            }
        }
        None => None,
    }
}

// The leg whose attempt has the identifier.
pub(crate) fn find_fresh(fresh: &VecDeque<Fresh>, id: u16) -> Option<Key>
    ensures { result ≡ leg_in_row id fresh.now.items }
{
    match position(fresh, id) {
        Some(index) => Some(fresh[index].leg),
        None => None,
    }
}

// Takes the attempt with the identifier out, and answers its leg.
pub(crate) fn drop_fresh(fresh: &mut VecDeque<Fresh>, id: u16) -> Option<Key>
    requires { AreDistinct fresh.old.items }
    ensures leg { result ≡ leg_in_row id fresh.old.items }
    ensures distinct { AreDistinct fresh.new.items }
    ensures left { Loses id (λ q. leg_in_row q fresh.old.items) (λ q. leg_in_row q fresh.new.items) }
{
    match position(fresh, id) {
        Some(index) => {
            let leg = fresh[index].leg;
            fresh.remove(index);
            Some(leg)
        }
        None => None,
    }
}

// The position of the attempt with the identifier.
fn position(fresh: &VecDeque<Fresh>, id: u16) -> Option<usize>
    ensures { FindsFresh id fresh.now.items result }
{
    for index in 0..fresh.len() {
        if id == fresh[index].id {
            return Some(index);
        }
    }
    None
}
