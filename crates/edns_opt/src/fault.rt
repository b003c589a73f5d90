//! Why the OPT record of a message can't be read.

ghost use Rattle.std.specs.Prelude.{◌≡◌};
ghost use Rattle.edns_opt.specs.declared.fault.EdnsFault.TheVariants as edns_fault;

use item_list::NoMemory;
use std::alloc::{AllocError, AllocFailed};
use thiserror::Error;

/// Why the OPT record of a message can't be read (RFC 6891, section 6.1).
#[derive(Clone, Copy, Debug, PartialEq, Eq, Error)]
pub enum EdnsFault {
    /// The additional section has more than one OPT record.
    #[error("more than one OPT record")]
    DoubleOpt,
    /// The rdata isn't a list of options: at this offset of the rdata begins what isn't a whole one.
    #[error("a cut option at {0}")]
    BadOptions(u64),
    /// Want of memory.
    #[error("out of memory")]
    NoMemory,
}

impl From<NoMemory> for EdnsFault {
    ghost from_gives = { λ _ fault. fault ≡ edns_fault.NoMemory };

    fn from(_: NoMemory) -> EdnsFault {
        EdnsFault::NoMemory
    }
}

impl From<AllocError> for EdnsFault {
    ghost from_gives = { λ _ fault. fault ≡ edns_fault.NoMemory };

    fn from(_: AllocError) -> EdnsFault {
        EdnsFault::NoMemory
    }
}

impl<T: Drop> From<AllocFailed<T>> for EdnsFault {
    ghost from_gives = { λ _ fault. fault ≡ edns_fault.NoMemory };

    fn from(_: AllocFailed<T>) -> EdnsFault {
        EdnsFault::NoMemory
    }
}
