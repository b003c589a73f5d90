//! One call, so many times. Each answers a number that all results go into.

use dns_message::Question;
use query_machine::{Judged, Terms, judge, query_bytes};
use std::alloc::Global;

/// Builds the bytes of a query so many times.
pub fn query_often(alloc: Global, asked: &Question, edns: Option<u16>, times: u32) -> u64 {
    let mut seen = 0u64;
    for round in 0..times {
        if let Ok(bytes) = query_bytes(alloc, asked, (round % 65_536) as u16, false, edns) {
            seen = seen.wrapping_add(bytes.len() as u64);
        }
    }
    seen
}

/// Looks so many times what the bytes mean for the query of this identifier, and counts when they end its leg.
pub fn judge_often(bytes: &[u8], id: u16, asked: &Question, terms: Terms, times: u32) -> u64 {
    let mut seen = 0u64;
    for _ in 0..times {
        if let Some(Judged::Final(_)) = judge(bytes, id, asked, false, terms) {
            seen = seen.wrapping_add(1);
        }
    }
    seen
}

/// Looks so many times whether the bytes answer a query of an identifier from 0 to 4,095, another one each time.
pub fn stray_often(bytes: &[u8], asked: &Question, terms: Terms, times: u32) -> u64 {
    let mut seen = 0u64;
    for round in 0..times {
        if judge(bytes, (round % 4_096) as u16, asked, false, terms).is_none() {
            seen = seen.wrapping_add(1);
        }
    }
    seen
}
