//! The numbers of the command line.

/// The number that a word spells, or what stands in for it.
pub fn number(word: Option<String>, other: u64) -> u64 {
    match word {
        Some(word) => word.as_str().parse().unwrap_or(other),
        None => other,
    }
}
