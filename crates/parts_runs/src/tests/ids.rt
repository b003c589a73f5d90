//! What no clause says: that the pool is made with ample memory, and what the calls answer on examples.
use id_pool::IdPool;
use std::test::Fail;

/// A change to the pool, and what it answers.
#[derive(Clone, Copy)]
enum Change {
    Take(u16, bool),
    GiveBack(u16, bool),
}

use Change::{GiveBack, Take};

/// A change, how many identifiers are in use after it, a random word, and the first free one from it upwards.
const STEPS: [(Change, u32, u16, u16); 12] = [
    (GiveBack(7, false), 0, 7, 7),
    (Take(7, true), 1, 7, 8),
    (Take(7, false), 1, 6, 6),
    // Past the end of a word of 64, and of a block of 4,096.
    (Take(63, true), 2, 63, 64),
    (Take(4095, true), 3, 4095, 4096),
    // From the greatest one it goes on at 0, and then at 1.
    (Take(65535, true), 4, 65535, 0),
    (Take(0, true), 5, 65535, 1),
    (Take(65534, true), 6, 65534, 1),
    (GiveBack(65535, true), 5, 65534, 65535),
    (GiveBack(65535, false), 5, 65534, 65535),
    (GiveBack(7, true), 4, 7, 7),
    (GiveBack(0, true), 3, 0, 0),
];

// Makes the change, and tells whether it answered as told.
fn answers(pool: &mut IdPool, change: Change) -> bool {
    match change {
        Take(id, was_free) => pool.take(id) == was_free && pool.is_used(id),
        GiveBack(id, was_used) => pool.give_back(id) == was_used && !pool.is_used(id),
    }
}

#[test]
fn first_free_ones_that_changes_leave(rt: HostRuntime) -> Result<(), Fail> {
    let mut pool = IdPool::make(rt.alloc())?;
    assert!(rt; pool.count() == 0);
    assert!(rt; pool.first_free(65535) == Some(65535));
    for (change, count, word, first) in STEPS.iter() {
        assert!(rt; answers(&mut pool, *change));
        assert!(rt; pool.count() == *count);
        assert!(rt; pool.first_free(*word) == Some(*first));
    }
    Ok(())
}

/// The identifiers of which one is free at a time: at the ends of a word of 64 and of a block of 4,096, and between them.
const LASTS: [u16; 10] = [0, 63, 64, 4095, 4096, 32768, 61440, 65471, 65472, 65535];

/// From where it is looked for.
const WORDS: [u16; 11] = [0, 1, 63, 64, 65, 4095, 4096, 32767, 32769, 61439, 65535];

// Takes all that there are, and tells whether each was free.
fn take_all(pool: &mut IdPool) -> bool {
    (0..=u16::MAX).all(|id: u16| pool.take(id))
}

// Whether this is the first free one from each of the words.
fn finds(pool: &IdPool, first: Option<u16>) -> bool {
    WORDS
        .iter()
        .all(|word: &u16| pool.first_free(*word) == first)
}

#[test]
fn last_free_one_is_found_from_everywhere(rt: HostRuntime) -> Result<(), Fail> {
    let mut pool = IdPool::make(rt.alloc())?;
    assert!(rt; take_all(&mut pool));
    assert!(rt; pool.count() == 65536);
    for last in LASTS.iter() {
        assert!(rt; finds(&pool, None));
        assert!(rt; pool.give_back(*last));
        assert!(rt; finds(&pool, Some(*last)));
        assert!(rt; pool.take(*last));
    }
    Ok(())
}
