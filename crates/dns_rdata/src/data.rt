//! What rdata says, by the type of its record.

use dns_message::{Bytes, BytesList, Name};
use net_addr::Addr;

/// What the rdata of a record says (RFC 1035, sections 3.3 and 3.4; RFC 2782; RFC 3596).
#[derive(Debug, Drop)]
pub enum RecordData {
    /// An IPv4 address.
    A(Addr),
    /// A name server.
    Ns(Name),
    /// The canonical name of an alias.
    Cname(Name),
    /// The start of a zone of authority; the last four numbers are seconds.
    Soa {
        mname: Name,
        rname: Name,
        serial: u32,
        refresh: u32,
        retry: u32,
        expire: u32,
        minimum: u32,
    },
    /// The name that an address, or another name, points to.
    Ptr(Name),
    /// A host's CPU and operating system.
    Hinfo(Bytes, Bytes),
    /// A mail exchange; the lower preference is tried first.
    Mx {
        preference: u16,
        exchange: Name,
    },
    /// Texts.
    Txt(BytesList),
    /// An IPv6 address.
    Aaaa(Addr),
    /// Where a service is found.
    Srv {
        priority: u16,
        weight: u16,
        port: u16,
        target: Name,
    },
    /// The options of an OPT record, as they are (RFC 6891, section 6.1.2).
    Opt(Bytes),
    /// The rdata of any other type, as it is.
    Raw(Bytes),
}
