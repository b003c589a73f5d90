//! How long an attempt waits, and how many there are.

use query_machine::{attempts, wait_of};
use resolv_options::Options;
use std::test::Fail;

/// Servers in use, spent attempts, the longest wait (0: none is set), and the wait in milliseconds by hand: 2,000 ms, doubled
/// with each whole round of the servers, nine times at most.
const WAITS: [(u32, u32, u32, u64); 28] = [
    (1, 0, 0, 2_000),
    (1, 1, 0, 4_000),
    (1, 2, 0, 8_000),
    (1, 3, 0, 16_000),
    (1, 4, 0, 32_000),
    (1, 5, 0, 64_000),
    (1, 6, 0, 128_000),
    (1, 7, 0, 256_000),
    (1, 8, 0, 512_000),
    (1, 9, 0, 1_024_000),
    (1, 10, 0, 1_024_000),
    (2, 0, 0, 2_000),
    (2, 1, 0, 2_000),
    (2, 2, 0, 4_000),
    (2, 3, 0, 4_000),
    (2, 18, 0, 1_024_000),
    (2, 19, 0, 1_024_000),
    (3, 2, 0, 2_000),
    (3, 3, 0, 4_000),
    (3, 8, 0, 8_000),
    (3, 29, 0, 1_024_000),
    (1, 0, 5_000, 2_000),
    (1, 1, 5_000, 4_000),
    (1, 2, 5_000, 5_000),
    (1, 9, 5_000, 5_000),
    (3, 5, 5_000, 4_000),
    (3, 6, 5_000, 5_000),
    (1, 0, 1, 1),
];

#[test]
fn waits_double_with_each_round(rt: HostRuntime) -> Result<(), Fail> {
    let mut options = Options::plain(rt.alloc())?;
    options.set_numbers(2_000, 10);
    for row in WAITS.iter() {
        let (used, spent, most, wait) = *row;
        assert!(rt; used != 0 && most <= 3_600_000);
        options.set_sizes(most, 1232);
        assert!(rt; wait_of(&options, spent, used) == wait);
    }
    Ok(())
}

/// Servers in use, and how many attempts there are with ten tries.
const ATTEMPTS: [(u32, u32); 6] = [
    (0, 0),
    (1, 10),
    (2, 20),
    (3, 30),
    (8, 80),
    (4_294_967_295, 4_294_967_295),
];

#[test]
fn attempts_are_tries_of_each_server(rt: HostRuntime) -> Result<(), Fail> {
    let mut options = Options::plain(rt.alloc())?;
    options.set_numbers(2_000, 10);
    for (used, most) in ATTEMPTS.iter() {
        assert!(rt; attempts(&options, *used) == *most);
    }
    Ok(())
}
