//! The words behind the part's.

/// The first of them, which names a task: empty where there is none.
pub fn task_of(words: &[String]) -> &str {
    match words.first() {
        Some(word) => word.as_str(),
        None => "",
    }
}

/// The number that one of them spells.
pub fn number_of(words: &[String], index: usize) -> Option<u64> {
    words.get(index)?.as_str().parse().ok()
}
