//! What no clause says: that the calls succeed with ample memory, and what they answer on examples.
use std::test::Fail;
use timeout_queue::{Key, Queue};

/// A change to the queue: a number's leg gets its moment, or leaves, and was there or not.
#[derive(Clone, Copy)]
enum Change {
    Put(u64, u8, u64),
    Drop(u64, u8, bool),
}

use Change::{Drop, Put};

/// A change, and the first deadline behind it: its number, its leg and its moment.
const STEPS: [(Change, Option<(u64, u8, u64)>); 22] = [
    (Drop(0, 0, false), None),
    (Put(7, 0, 500), Some((7, 0, 500))),
    // A later moment stays behind, also of a smaller number.
    (Put(3, 0, 900), Some((7, 0, 500))),
    // An earlier moment goes ahead, also of a greater number.
    (Put(9, 1, 499), Some((9, 1, 499))),
    // At one moment the smaller number is first, and of one number the smaller leg.
    (Put(8, 2, 499), Some((8, 2, 499))),
    (Put(8, 1, 499), Some((8, 1, 499))),
    (Put(8, 3, 499), Some((8, 1, 499))),
    // A key that isn't there changes nothing, and another leg is another key.
    (Drop(8, 0, false), Some((8, 1, 499))),
    (Drop(7, 1, false), Some((8, 1, 499))),
    (Drop(8, 1, true), Some((8, 2, 499))),
    (Drop(8, 1, false), Some((8, 2, 499))),
    // What is taken out from behind the first leaves the first.
    (Drop(9, 1, true), Some((8, 2, 499))),
    (Drop(8, 2, true), Some((8, 3, 499))),
    (Drop(8, 3, true), Some((7, 0, 500))),
    // A key that was taken out may come back, at another moment.
    (Put(9, 1, 700), Some((7, 0, 500))),
    (Drop(7, 0, true), Some((9, 1, 700))),
    (Put(u64::MAX, u8::MAX, 0), Some((u64::MAX, u8::MAX, 0))),
    (Put(0, 0, u64::MAX), Some((u64::MAX, u8::MAX, 0))),
    (Drop(u64::MAX, u8::MAX, true), Some((9, 1, 700))),
    (Drop(9, 1, true), Some((3, 0, 900))),
    (Drop(3, 0, true), Some((0, 0, u64::MAX))),
    (Drop(0, 0, true), None),
];

// The first deadline of the queue.
fn first_of(queue: &Queue) -> Option<(u64, u8, u64)> {
    let (key, due) = queue.first_due()?;
    Some((key.number, key.leg, due))
}

#[test]
fn firsts_that_changes_leave(rt: HostRuntime) -> Result<(), Fail> {
    let mut queue = Queue::make(rt.alloc());
    assert!(rt; queue.first_due() == None);
    for (change, first) in STEPS.iter() {
        match *change {
            Put(number, leg, due) => {
                let key = Key { number, leg };
                assert!(rt; !queue.has(key));
                queue.put(key, due)?;
                assert!(rt; queue.has(key));
            }
            Drop(number, leg, was_there) => {
                let key = Key { number, leg };
                assert!(rt; queue.has(key) == was_there);
                assert!(rt; queue.drop_key(key) == was_there);
                assert!(rt; !queue.has(key));
            }
        }
        assert!(rt; first_of(&queue) == *first);
    }
    Ok(())
}

/// How many deadlines the long run has: a power of two, so that `scattered` meets each once.
const MANY: u64 = 1 << 21;

// The i-th of the numbers below `MANY` in an order that the seed decides. Each step is one to one.
fn scattered(i: u64, seed: u64) -> u64 {
    let mut x = (i ^ seed) % MANY;
    for _ in 0..3 {
        x = x.wrapping_mul(0x2545_F491_4F6C_DD1D) % MANY;
        x ^= x >> 9;
    }
    x
}

// The i-th deadline in order. There are 32 at each moment, and a later moment has smaller numbers.
fn deadline(i: u64) -> (Key, u64) {
    let due = i / 32;
    let number = (u64::MAX - 7)
        .wrapping_sub(due.wrapping_mul(8))
        .wrapping_add(i / 4 % 8);
    let leg = (i % 4) as u8;
    (Key { number, leg }, due)
}

#[test]
fn many_keys_leave_in_order(rt: HostRuntime) -> Result<(), Fail> {
    let mut queue = Queue::make(rt.alloc());
    for i in 0..MANY {
        let (key, due) = deadline(scattered(i, 12_345));
        assert!(rt; !queue.has(key));
        queue.put(key, due)?;
    }
    // Every third leaves, in another order.
    for i in 0..MANY {
        let place = scattered(i, 67_890);
        if place % 3 == 0 {
            assert!(rt; queue.drop_key(deadline(place).0));
        }
    }
    // The others leave from the front.
    for i in 0..MANY {
        if i % 3 != 0 {
            let (key, due) = deadline(i);
            assert!(rt; queue.first_due() == Some((key, due)));
            assert!(rt; queue.drop_key(key));
        }
    }
    assert!(rt; queue.first_due() == None);
    Ok(())
}
