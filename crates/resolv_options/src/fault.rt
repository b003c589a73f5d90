//! Why a resolv.conf can't be read.

ghost use Rattle.std.specs.Prelude.{◌≡◌};
ghost use Rattle.resolv_options.specs.declared.fault.ResolvFault.TheVariants as resolv_fault;

use item_list::NoMemory;
use thiserror::Error;

/// Why a resolv.conf can't be read.
#[derive(Clone, Copy, Debug, PartialEq, Eq, Error)]
pub enum ResolvFault {
    /// The file has more than 65,536 bytes (this project's profile).
    #[error("too large")]
    TooLarge,
    /// Want of memory.
    #[error("out of memory")]
    NoMemory,
}

impl From<NoMemory> for ResolvFault {
    ghost from_gives = { λ _ fault. fault ≡ resolv_fault.NoMemory };

    fn from(_: NoMemory) -> ResolvFault {
        ResolvFault::NoMemory
    }
}
