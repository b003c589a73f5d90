//! What is measured.

/// How many queries are in flight at most, and how many are sent in all, to a port of 127.0.0.1.
#[derive(Clone, Copy)]
pub struct Load {
    pub port: u16,
    pub window: u64,
    pub count: u64,
}

/// How many queries were answered, and the processor time of that, in nanoseconds.
#[derive(Clone, Copy)]
pub struct Spent {
    pub answered: u64,
    pub nanos: u128,
    /// What it took to drop what was kept, in nanoseconds.
    pub at_end: u128,
}

impl Spent {
    /// The processor time of each query of the load.
    pub fn each(&self, load: &Load) -> u128 {
        self.nanos / u128::from(load.count.max(1))
    }

    /// What it took for each query to drop what was kept.
    pub fn each_at_end(&self, load: &Load) -> u128 {
        self.at_end / u128::from(load.count.max(1))
    }

    /// How many queries of the load weren't answered.
    pub fn lost(&self, load: &Load) -> u64 {
        load.count.saturating_sub(self.answered)
    }
}

/// The number that a word is, or another one.
pub fn number(word: Option<String>, other: u64) -> u64 {
    match word {
        Some(word) => word.as_str().parse().unwrap_or(other),
        None => other,
    }
}
