//! Why a zone can't be read.

ghost use Rattle.std.specs.Prelude.{◌≡◌};
ghost use Rattle.test_nameserver.specs.declared.fault.ZoneFault.TheVariants as zone_fault;

use item_list::NoMemory;
use thiserror::Error;

/// Why a zone can't be read.
#[derive(Clone, Copy, Debug, PartialEq, Eq, Error)]
pub enum ZoneFault {
    /// The text has more than 1,048,576 bytes (this project's profile).
    #[error("too large")]
    TooLarge,
    /// The line with this number, from 1, is the first that gives no record.
    #[error("bad line {0}")]
    BadLine(u64),
    /// Want of memory.
    #[error("out of memory")]
    NoMemory,
}

impl From<NoMemory> for ZoneFault {
    ghost from_gives = { λ _ fault. fault ≡ zone_fault.NoMemory };

    fn from(_: NoMemory) -> ZoneFault {
        ZoneFault::NoMemory
    }
}
