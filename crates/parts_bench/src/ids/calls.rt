//! Many calls, one after another.
use id_pool::IdPool;

// The next of a row of numbers in no order, and its upper half.
fn scattered(seed: u32) -> (u32, u16) {
    let next = seed.wrapping_mul(1_664_525).wrapping_add(1_013_904_223);
    (next, (next >> 16) as u16)
}

/// Takes so many identifiers, each the first free one from a number in no order.
pub fn fill(pool: &mut IdPool, used: u32) {
    let mut seed = 1u32;
    for _ in 0..used {
        let (next, word) = scattered(seed);
        seed = next;
        if let Some(id) = pool.first_free(word) {
            pool.take(id);
        }
    }
}

/// Makes the call with so many numbers in no order, and answers a number that each answer goes into.
pub fn run(pool: &mut IdPool, steps: u32, call: u32) -> u32 {
    let mut seed = 2u32;
    let mut seen = 0u32;
    for _ in 0..steps {
        let (next, word) = scattered(seed);
        seed = next;
        let answer = match call {
            0 => u32::from(word),
            1 => pool.first_free(word).map_or(0, u32::from),
            2 => u32::from(pool.is_used(word)),
            _ => u32::from(pool.take(word)) + u32::from(pool.give_back(word)),
        };
        seen = seen.rotate_left(1) ^ answer;
    }
    seen
}
