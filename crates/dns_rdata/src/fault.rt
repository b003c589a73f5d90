//! Why rdata has no typed form.

ghost use Rattle.std.specs.Prelude.{◌≡◌};
ghost use Rattle.dns_rdata.specs.declared.fault.RdataFault.TheVariants as rdata_fault;

use dns_message::NoMemory;
use std::alloc::{AllocError, AllocFailed};
use thiserror::Error;

/// Why rdata has no typed form.
#[derive(Clone, Copy, Debug, PartialEq, Eq, Error)]
pub enum RdataFault {
    /// The rdata doesn't have the shape of its type and class.
    #[error("rdata that its type doesn't have")]
    BadRdata,
    /// Want of memory.
    #[error("out of memory")]
    NoMemory,
}

impl From<NoMemory> for RdataFault {
    ghost from_gives = { λ _ fault. fault ≡ rdata_fault.NoMemory };

    fn from(_: NoMemory) -> RdataFault {
        RdataFault::NoMemory
    }
}

impl From<AllocError> for RdataFault {
    ghost from_gives = { λ _ fault. fault ≡ rdata_fault.NoMemory };

    fn from(_: AllocError) -> RdataFault {
        RdataFault::NoMemory
    }
}

impl<T: Drop> From<AllocFailed<T>> for RdataFault {
    ghost from_gives = { λ _ fault. fault ≡ rdata_fault.NoMemory };

    fn from(_: AllocFailed<T>) -> RdataFault {
        RdataFault::NoMemory
    }
}
