//! The words behind the part's.

use std::alloc::{AllocError, Global};

/// What is done, and how often.
#[derive(Drop)]
pub struct Words {
    words: Vec<String>,
}

impl Words {
    /// No words.
    pub fn none(alloc: Global) -> Words {
        Words {
            words: Vec::new(alloc),
        }
    }

    /// One word more.
    pub fn add(&mut self, word: String) -> Result<(), AllocError> {
        self.words.push(word)?;
        Ok(())
    }

    /// The first word, which names a task: empty where there is none.
    pub fn task(&self) -> &str {
        match self.words.first() {
            Some(word) => word.as_str(),
            None => "",
        }
    }

    /// The number that a word spells.
    pub fn number(&self, index: usize) -> Option<u32> {
        self.words.get(index)?.as_str().parse().ok()
    }
}
