//! What a request was answered.

ghost use Rattle.std.specs.Prelude.{◌≡◌, IfOk};

use crate::status::Status;
use dns_message::{Bytes, Name, NoMemory};
use net_addr::AddrList;
use std::alloc::Global;

/// The answer of the request with this number. Fields that its kind of request doesn't fill are empty, and the root.
#[derive(Debug, Drop)]
pub struct Answer {
    /// The request's number, from 1.
    pub number: u64,
    pub status: Status,
    /// The reply's bytes (RFC 1035, section 4.1), or none.
    pub message: Bytes,
    /// The addresses that were asked for, in the order in which they should be tried.
    pub addresses: AddrList,
    /// The name that the addresses belong to, behind all aliases.
    pub canonical: Name,
}

impl Answer {
    /// An equal answer.
    pub fn copy(&self, alloc: Global) -> Result<Answer, NoMemory>
        ensures { IfOk result (λ answer. answer ≡ self.now) }
    {
        Ok(Answer {
            number: self.number,
            status: self.status,
            message: Bytes::of(alloc, self.message.as_slice())?,
            addresses: AddrList::of(alloc, self.addresses.as_slice())?,
            canonical: self.canonical.copy(alloc)?,
        })
    }
}
