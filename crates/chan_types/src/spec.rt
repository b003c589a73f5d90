//! A request, as plain data: what is asked for.

ghost use Rattle.std.specs.Prelude.{◌≡◌, IfOk};

use dns_message::{Bytes, NoMemory};
use net_addr::{Addr, Family};
use std::alloc::Global;

/// What a request asks for. Names are texts; whether a text is a name is found out when the request is accepted.
/// A kind is a record type's number and a class a class's (RFC 1035, sections 3.2.2 to 3.2.5).
#[derive(Debug, Drop)]
pub enum Spec {
    /// Records of this one name.
    Query {
        name: Bytes,
        kind: u16,
        class: u16,
    },
    /// Records of this name, or of its candidates by the search list.
    Search {
        name: Bytes,
        kind: u16,
        class: u16,
    },
    /// Addresses of a host, by its name or its own text; with `nosort` they stay in the order in which they came.
    Address {
        host: Bytes,
        family: Family,
        nosort: bool,
    },
    /// The names of an address: PTR records of its reverse name in class IN (RFC 1035, section 3.5).
    Reverse {
        address: Addr,
    },
}

impl Spec {
    /// An equal request.
    pub fn copy(&self, alloc: Global) -> Result<Spec, NoMemory>
        ensures { IfOk result (λ spec. spec ≡ self.now) }
    {
        Ok(match self {
            Spec::Query { name, kind, class } => Spec::Query {
                name: Bytes::of(alloc, name.as_slice())?,
                kind: *kind,
                class: *class,
            },
            Spec::Search { name, kind, class } => Spec::Search {
                name: Bytes::of(alloc, name.as_slice())?,
                kind: *kind,
                class: *class,
            },
            Spec::Address {
                host,
                family,
                nosort,
            } => Spec::Address {
                host: Bytes::of(alloc, host.as_slice())?,
                family: *family,
                nosort: *nosort,
            },
            Spec::Reverse { address } => Spec::Reverse { address: *address },
        })
    }
}
