//! What steers a script: the orders of the command line, and what a step of a script waits for.

/// The orders that a program's words gave. A step of a script may need one.
#[derive(Clone, Copy, Debug, PartialEq, Eq)]
pub struct Orders {
    /// Ask further about what was answered.
    pub follow: bool,
    /// Be content with the first good answer.
    pub first: bool,
    /// Stop behind the first answer.
    pub quit: bool,
}

/// For which answers a step is taken.
#[derive(Clone, Copy, Debug, PartialEq, Eq)]
pub enum When {
    /// For every answer.
    Always,
    /// For an answer with status 0.
    Good,
    /// For an answer with another status.
    Bad,
}

/// The order that a step needs.
#[derive(Clone, Copy, Debug, PartialEq, Eq)]
pub enum Need {
    /// No order.
    Nothing,
    /// The order `follow`.
    Follow,
    /// The order `first`.
    First,
    /// The order `quit`.
    Quit,
}
