//! Why a text is no run, or a line none of a run's.

ghost use Rattle.std.specs.Prelude.{◌≡◌};

use item_list::NoMemory;
use std::alloc::{AllocError, AllocFailed};

/// Why bytes are read as no run. The numbers of the causes are this project's own.
#[derive(Clone, Copy, Debug, PartialEq, Eq)]
pub enum BookFault {
    /// 31: there are more than 16,777,216 bytes.
    TooLarge,
    /// 32: this line, the first being 1, is the first such that no run's text begins with the lines up to it. Where the
    /// text ends too early it is the line behind the last.
    BadLine(u64),
    /// 33: the text is a run's, with more than 4,096 entries.
    TooMany,
    /// 34: the text is a run's, with a hosts file of more than 4,194,304 bytes.
    BadHosts,
    /// Want of memory.
    NoMemory,
}

impl From<NoMemory> for BookFault {
    ghost use Rattle.journal_text.specs.declared.fault.BookFault.TheVariants.{NoMemory as Memory};

    ghost from_gives = { λ _ fault. fault ≡ Memory };

    fn from(_: NoMemory) -> BookFault {
        BookFault::NoMemory
    }
}

/// Why a line is none, or couldn't be read.
#[derive(Clone, Copy, Debug, PartialEq, Eq)]
pub(crate) enum LineFault {
    /// No line of a run's text begins or goes on so.
    Bad,
    /// Want of memory.
    NoMemory,
}

impl From<NoMemory> for LineFault {
    ghost use Rattle.journal_text.specs.declared.fault.LineFault.TheVariants.{NoMemory as Memory};

    ghost from_gives = { λ _ fault. fault ≡ Memory };

    fn from(_: NoMemory) -> LineFault {
        LineFault::NoMemory
    }
}

impl From<AllocError> for LineFault {
    ghost use Rattle.journal_text.specs.declared.fault.LineFault.TheVariants.{NoMemory as Memory};

    ghost from_gives = { λ _ fault. fault ≡ Memory };

    fn from(_: AllocError) -> LineFault {
        LineFault::NoMemory
    }
}

impl<T: Drop> From<AllocFailed<T>> for LineFault {
    ghost use Rattle.journal_text.specs.declared.fault.LineFault.TheVariants.{NoMemory as Memory};

    ghost from_gives = { λ _ fault. fault ≡ Memory };

    fn from(_: AllocFailed<T>) -> LineFault {
        LineFault::NoMemory
    }
}
