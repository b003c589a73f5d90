//! The words of a command line.

use item_list::NoMemory;
use std::alloc::Global;

/// The words of a line, which one blank parts from the next. An empty line has none.
pub fn words_of(alloc: Global, line: &str) -> Result<Vec<&str>, NoMemory> {
    let mut words = Vec::new(alloc);
    if !line.is_empty() {
        for word in line.split(' ') {
            words.push(word)?;
        }
    }
    Ok(words)
}
