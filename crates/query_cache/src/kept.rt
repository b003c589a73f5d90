//! What a cache holds for a question.

use chan_types::Answer;
use dns_message::Question;

/// A kept answer: the question as it was last asked, and the first moment at which the answer is given no more.
#[derive(Debug, Drop)]
pub struct Kept {
    pub asked: Question,
    pub answer: Answer,
    /// In milliseconds. It may be past what 64 bits count.
    pub end: u128,
}
