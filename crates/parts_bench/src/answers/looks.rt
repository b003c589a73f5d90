//! Many looks, one after another.

use dns_message::Question;
use query_cache::QueryCache;

/// How far apart the questions of two looks stand: a prime, so that all come before one comes again.
const STRIDE: usize = 7_919;

/// Looks for the questions in turn, so many times, and answers how many answers were given.
pub fn look_often(cache: &mut QueryCache, asked: &[Question], looks: u32) -> u32 {
    let mut given = 0u32;
    let mut next = 0usize;
    for _ in 0..looks {
        if let Some(question) = asked.get(next) {
            if let Ok(Some(_)) = cache.look(question, 1000) {
                given = given.saturating_add(1);
            }
        }
        next = next.saturating_add(STRIDE) % asked.len().max(1);
    }
    given
}
