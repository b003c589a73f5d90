//! Why the words of a command line aren't taken.

ghost use Rattle.std.specs.Prelude.{◌≡◌};
ghost use Rattle.tool_line.specs.declared.fault.WordFault.TheVariants as word_fault;

use item_list::NoMemory;
use std::alloc::{AllocError, AllocFailed};
use thiserror::Error;

/// Why the words of a command line aren't taken.
#[derive(Clone, Copy, Debug, PartialEq, Eq, Error)]
pub enum WordFault {
    /// The words don't say what the tool understands.
    #[error("usage")]
    Refused,
    /// Want of memory.
    #[error("out of memory")]
    NoMemory,
}

impl From<NoMemory> for WordFault {
    ghost from_gives = { λ _ fault. fault ≡ word_fault.NoMemory };

    fn from(_: NoMemory) -> WordFault {
        WordFault::NoMemory
    }
}

impl From<AllocError> for WordFault {
    ghost from_gives = { λ _ fault. fault ≡ word_fault.NoMemory };

    fn from(_: AllocError) -> WordFault {
        WordFault::NoMemory
    }
}

impl<T: Drop> From<AllocFailed<T>> for WordFault {
    ghost from_gives = { λ _ fault. fault ≡ word_fault.NoMemory };

    fn from(_: AllocFailed<T>) -> WordFault {
        WordFault::NoMemory
    }
}
