//! Answers, and what stands in them.

ghost use Rattle.std.specs.Prelude.{◌≡◌, []};
ghost use Rattle.channel_model.specs.Merge.{bare as bare_answer};

use chan_types::{AddrList, Answer, Bytes, Name, Status};
use std::alloc::Global;

/// The answer with a status alone. It takes no memory.
pub(crate) fn bare(alloc: Global, number: u64, status: Status) -> Answer
    ensures { result ≡ bare_answer number status [] }
{
    Answer {
        number,
        status,
        message: Bytes::new(alloc),
        addresses: AddrList::new(alloc),
        canonical: Name::root(alloc),
    }
}

/// The good answer with these addresses, as they stand, which belong to this name. It takes no memory.
pub(crate) fn good(alloc: Global, number: u64, addresses: AddrList, canonical: Name) -> Answer
    ensures { result ≡ record { number = number; status = Status.Success; message = []; addresses = addresses; canonical = canonical } }
{
    Answer {
        number,
        status: Status::Success,
        message: Bytes::new(alloc),
        addresses,
        canonical,
    }
}
