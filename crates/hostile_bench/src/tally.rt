//! What was told of many cases, counted.

use crate::cases::Case;
use crate::telling::told;
use item_list::NoMemory;
use std::alloc::Global;

/// What was told of many cases.
#[derive(Clone, Copy, Default)]
pub struct Tally {
    /// How many were read without a fault.
    pub read: u64,
    /// For how many memory was wanting.
    pub wanted_memory: u64,
    /// A number that all texts go into.
    pub sum: u64,
}

/// A number that all bytes go into (the hash FNV-1a of 64 bits).
fn sum_of(sum: u64, bytes: &[u8]) -> u64 {
    let mut sum = sum;
    for byte in bytes {
        sum = (sum ^ u64::from(*byte)).wrapping_mul(0x100_0000_01b3);
    }
    sum
}

impl Tally {
    /// Adds what is told of a case.
    pub fn add(&mut self, alloc: Global, case: &Case) {
        match told(alloc, case) {
            Ok(text) => {
                let read = !text.as_slice().starts_with(b"!");
                self.read = self.read.saturating_add(u64::from(read));
                self.sum = sum_of(self.sum, text.as_slice());
            }
            Err(NoMemory) => self.wanted_memory = self.wanted_memory.saturating_add(1),
        }
    }
}
