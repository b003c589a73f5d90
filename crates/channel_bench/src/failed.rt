//! What goes wrong: memory is wanting, a request is refused, or a run is not as it should be.

use item_list::NoMemory;
use std::alloc::{AllocError, AllocFailed};

/// Memory was wanting, a request was refused, or a run was not as it should be.
#[derive(Drop)]
pub struct Failed;

impl From<NoMemory> for Failed {
    fn from(_: NoMemory) -> Failed {
        Failed
    }
}

impl From<AllocError> for Failed {
    fn from(_: AllocError) -> Failed {
        Failed
    }
}

impl<T: Drop> From<AllocFailed<T>> for Failed {
    fn from(_: AllocFailed<T>) -> Failed {
        Failed
    }
}
