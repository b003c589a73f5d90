//! Why a hosts file can't be read.

ghost use Rattle.std.specs.Prelude.{◌≡◌};
ghost use Rattle.hosts_file.specs.declared.fault.HostsFault.TheVariants as hosts_fault;

use item_list::NoMemory;
use std::alloc::{AllocError, AllocFailed};
use thiserror::Error;

/// Why a hosts file can't be read.
#[derive(Clone, Copy, Debug, PartialEq, Eq, Error)]
pub enum HostsFault {
    /// The file has more than 4,194,304 bytes (this project's profile).
    #[error("too large")]
    TooLarge,
    /// Want of memory.
    #[error("out of memory")]
    NoMemory,
}

impl From<NoMemory> for HostsFault {
    ghost from_gives = { λ _ fault. fault ≡ hosts_fault.NoMemory };

    fn from(_: NoMemory) -> HostsFault {
        HostsFault::NoMemory
    }
}
