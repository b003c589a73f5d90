//! What no clause says: that the calls succeed with ample memory, and what they answer on examples.
use leg_index::{Flights, Links, Waiting};
use std::alloc::{AllocError, Global};
use std::test::Fail;
use timeout_queue::Key;

// The letter is the request, and the digit its leg.
const A0: Key = Key { number: 1, leg: 0 };

const A1: Key = Key { number: 1, leg: 1 };

const B0: Key = Key { number: 2, leg: 0 };

const C0: Key = Key { number: 3, leg: 0 };

const C1: Key = Key { number: 3, leg: 1 };

const E0: Key = Key { number: 4, leg: 0 };

/// A change to the legs in flight.
#[derive(Clone, Copy)]
enum Turn {
    Begin(u16, Key),
    End(u16, Option<Key>),
}

use Turn::{Begin, End};

// Begins or ends the attempt, and tells whether it answered as told.
fn answers(flights: &mut Flights, turn: Turn) -> Result<bool, AllocError> {
    match turn {
        Begin(id, leg) => {
            flights.begin(id, leg)?;
            Ok(true)
        }
        End(id, leg) => Ok(flights.end(id) == leg),
    }
}

/// A change, a random word, and the first free identifier from it upwards.
const ROUND: [(Turn, u16, u16); 10] = [
    (End(7, None), 7, 7),
    (Begin(7, A0), 7, 8),
    (Begin(8, A1), 7, 9),
    (Begin(65535, B0), 65535, 0),
    (Begin(0, C0), 65535, 1),
    (End(8, Some(A1)), 7, 8),
    (End(8, None), 7, 8),
    (End(7, Some(A0)), 7, 7),
    (End(65535, Some(B0)), 65535, 65535),
    (End(0, Some(C0)), 0, 0),
];

// Begins or ends the attempt, and tells whether it answered as told, and the identifier's leg ahead of it and behind it is
// what it should be.
fn changes(flights: &mut Flights, turn: Turn) -> Result<bool, AllocError> {
    let (id, ahead, behind) = match turn {
        Begin(id, leg) => (id, None, Some(leg)),
        End(id, leg) => (id, leg, None),
    };
    Ok(flights.leg(id) == ahead && answers(flights, turn)? && flights.leg(id) == behind)
}

#[test]
fn identifiers_go_round_and_come_back(rt: HostRuntime) -> Result<(), Fail> {
    let mut flights = Flights::make(rt.alloc())?;
    for (turn, word, first) in ROUND.iter() {
        assert!(rt; changes(&mut flights, *turn)?);
        assert!(rt; flights.first_free(*word) == Some(*first));
    }
    Ok(())
}

// The leg that the table has at the identifier.
fn leg_at(stand: &[(u16, Key)], id: u16) -> Option<Key> {
    for (at, leg) in stand.iter() {
        if *at == id {
            return Some(*leg);
        }
    }
    None
}

// Whether each identifier below 12 has the leg that the table has.
fn stands(flights: &Flights, stand: &[(u16, Key)]) -> bool {
    (0..12).all(|id: u16| flights.leg(id) == leg_at(stand, id))
}

/// Four legs begin, of which the first ends first and the last second. Then two identifiers begin again behind their ends,
/// and legs end out of the order in which they began. Beside each change stand those in flight.
const ORDERS: [(Turn, &[(u16, Key)]); 14] = [
    (Begin(9, A0), &[(9, A0)]),
    (Begin(4, B0), &[(9, A0), (4, B0)]),
    (Begin(6, C0), &[(9, A0), (4, B0), (6, C0)]),
    (Begin(2, C1), &[(9, A0), (4, B0), (6, C0), (2, C1)]),
    (End(9, Some(A0)), &[(4, B0), (6, C0), (2, C1)]),
    (End(2, Some(C1)), &[(4, B0), (6, C0)]),
    (Begin(9, E0), &[(4, B0), (6, C0), (9, E0)]),
    (Begin(2, A0), &[(4, B0), (6, C0), (9, E0), (2, A0)]),
    (End(6, Some(C0)), &[(4, B0), (9, E0), (2, A0)]),
    (Begin(6, C1), &[(4, B0), (9, E0), (2, A0), (6, C1)]),
    (End(6, Some(C1)), &[(4, B0), (9, E0), (2, A0)]),
    (End(6, None), &[(4, B0), (9, E0), (2, A0)]),
    (End(2, Some(A0)), &[(4, B0), (9, E0)]),
    (End(4, Some(B0)), &[(9, E0)]),
];

// At the end an identifier begins again while it is in use.
#[test]
fn legs_end_in_order_and_out_of_order(rt: HostRuntime) -> Result<(), Fail> {
    let mut flights = Flights::make(rt.alloc())?;
    for (turn, stand) in ORDERS.iter() {
        assert!(rt; answers(&mut flights, *turn)?);
        assert!(rt; stands(&flights, *stand));
    }
    flights.begin(9, B0)?;
    assert!(rt; flights.leg(9) == Some(B0));
    assert!(rt; flights.end(9) == Some(B0));
    assert!(rt; flights.leg(9) == None);
    Ok(())
}

/// Changes, and the legs in flight behind them. `index_all` is called behind each row, and leaves them as they are.
const INDEXED: [(&[Turn], &[(u16, Key)]); 6] = [
    (&[], &[]),
    // Five begin, and two of them end in order.
    (
        &[
            Begin(9, A0),
            Begin(4, B0),
            Begin(6, C0),
            Begin(2, C1),
            Begin(7, E0),
            End(9, Some(A0)),
            End(4, Some(B0)),
        ],
        &[(6, C0), (2, C1), (7, E0)],
    ),
    // Where all are in the map already, nothing is left to put there.
    (&[], &[(6, C0), (2, C1), (7, E0)]),
    // One of the map ends out of order, and two begin behind it, one with the identifier of an earlier attempt.
    (
        &[End(2, Some(C1)), End(2, None), Begin(9, B0), Begin(11, A0)],
        &[(6, C0), (7, E0), (9, B0), (11, A0)],
    ),
    // A leg in the map gives its identifier to another, and one that isn't there yet does too.
    (
        &[
            Begin(7, C1),
            Begin(5, E0),
            Begin(3, C0),
            Begin(3, B0),
            End(11, Some(A0)),
        ],
        &[(6, C0), (7, C1), (9, B0), (5, E0), (3, B0)],
    ),
    // All end, the last ones first.
    (
        &[
            End(3, Some(B0)),
            End(5, Some(E0)),
            End(9, Some(B0)),
            End(7, Some(C1)),
            End(6, Some(C0)),
            End(6, None),
        ],
        &[],
    ),
];

// Whether each of these changes answers as told.
fn all_answer(flights: &mut Flights, turns: &[Turn]) -> Result<bool, AllocError> {
    for turn in turns.iter() {
        if !answers(flights, *turn)? {
            return Ok(false);
        }
    }
    Ok(true)
}

#[test]
fn legs_that_an_index_leaves(rt: HostRuntime) -> Result<(), Fail> {
    let mut flights = Flights::make(rt.alloc())?;
    for (turns, stand) in INDEXED.iter() {
        assert!(rt; all_answer(&mut flights, *turns)?);
        assert!(rt; stands(&flights, *stand));
        flights.index_all();
        assert!(rt; stands(&flights, *stand));
    }
    Ok(())
}

/// The number and leg of legs that come, of which some were there before.
const COME: [(u64, u8); 10] = [
    (1, 0),
    (2, 0),
    (2, 1),
    (5, 0),
    (2, 2),
    (1, 1),
    (1, 1),
    (9, 0),
    (3, 255),
    (9, 0),
];

/// In which order they leave: those that leave are always the first.
const LEAVE: [(u64, u8); 8] = [
    (1, 0),
    (1, 1),
    (2, 0),
    (2, 1),
    (2, 2),
    (3, 255),
    (5, 0),
    (9, 0),
];

#[test]
fn a_leg_that_waits_again_goes_ahead_of_later_requests(rt: HostRuntime) -> Result<(), Fail> {
    let mut waiting = Waiting::make(rt.alloc());
    assert!(rt; waiting.first() == None);
    for (number, leg) in COME.iter() {
        waiting.put(Key {
            number: *number,
            leg: *leg,
        })?;
        assert!(rt; waiting.first() == Some(A0));
    }
    for (number, leg) in LEAVE.iter() {
        let first = waiting.first();
        assert!(rt;
            first
                == Some(Key {
                    number: *number,
                    leg: *leg
                })
        );
        if let Some(first) = first {
            waiting.drop_first(first);
        }
    }
    assert!(rt; waiting.first() == None);
    waiting.put(E0)?;
    waiting.put(C0)?;
    waiting.clear();
    assert!(rt; waiting.first() == None);
    Ok(())
}

#[test]
fn a_link_is_busy_until_its_last_leg_ends(rt: HostRuntime) -> Result<(), Fail> {
    let mut links = Links::make(rt.alloc());
    assert!(rt; !links.is_busy(0, 0));
    links.end(0, 0, 7);
    links.begin(0, 0, 7)?;
    links.begin(1, 3, 8)?;
    links.begin(1, 3, 9)?;
    assert!(rt; links.is_busy(0, 0) && links.is_busy(1, 3));
    assert!(rt; !links.is_busy(1, 0) && !links.is_busy(0, 3) && !links.is_busy(3, 1));
    assert!(rt; links.over_tcp(0) == None && links.over_tcp(1) == Some(3));
    links.end(0, 0, 7);
    links.end(1, 3, 9);
    assert!(rt; !links.is_busy(0, 0) && links.is_busy(1, 3));
    links.end(1, 3, 8);
    assert!(rt; !links.is_busy(1, 3) && links.over_tcp(1) == None);
    Ok(())
}

// Whether a link has these identifiers.
fn has_ids(
    alloc: Global,
    links: &Links,
    server: u32,
    link: u64,
    ids: &[u16],
) -> Result<bool, Fail> {
    Ok(links.ids(alloc, server, link)?.as_slice() == ids)
}

#[test]
fn a_link_tells_the_identifiers_of_its_attempts(rt: HostRuntime) -> Result<(), Fail> {
    let alloc = rt.alloc();
    let mut links = Links::make(alloc);
    links.begin(0, 0, 65535)?;
    links.begin(0, 0, 64)?;
    links.begin(0, 0, 0)?;
    links.begin(0, 0, 63)?;
    links.begin(1, 3, 5)?;
    assert!(rt; has_ids(alloc, &links, 0, 0, &[0, 63, 64, 65535])?);
    assert!(rt; has_ids(alloc, &links, 1, 3, &[5])?);
    assert!(rt; links.count(0, 0) == 4);
    links.end(0, 0, 63);
    links.end(1, 3, 5);
    assert!(rt; has_ids(alloc, &links, 0, 0, &[0, 64, 65535])?);
    assert!(rt; has_ids(alloc, &links, 1, 3, &[])?);
    assert!(rt; links.count(0, 0) == 3);
    // A later link takes the place of the one that is done.
    links.begin(1, 4, 6)?;
    assert!(rt; has_ids(alloc, &links, 1, 3, &[])?);
    assert!(rt; has_ids(alloc, &links, 1, 4, &[6])?);
    Ok(())
}
