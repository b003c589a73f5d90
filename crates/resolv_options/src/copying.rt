//! Equal options, in memory of their own.

ghost use Rattle.std.specs.Prelude.{◌≡◌, IfOk};

use crate::options::Options;
use dns_message::{Name, NameList};
use item_list::NoMemory;
use net_addr::{AddrList, ServerList};
use std::alloc::Global;

/// Equal names.
fn copied_names(alloc: Global, names: &[Name]) -> Result<NameList, NoMemory>
    ensures { IfOk result (λ copied. copied ≡ names.now) }
{
    let mut copied = Vec::with_capacity(alloc, names.len())?;
    for name in names {
        copied.push(name.copy(alloc)?)?;
    }
    Ok(NameList::from_vec(copied))
}

impl Options {
    /// Equal options.
    pub fn copy(&self, alloc: Global) -> Result<Options, NoMemory>
        ensures { IfOk result (λ copied. copied ≡ self.now) }
    {
        Ok(Options {
            servers: ServerList::of(alloc, self.servers.as_slice())?,
            domains: copied_names(alloc, self.domains.as_slice())?,
            ndots: self.ndots,
            tries: self.tries,
            timeout: self.timeout,
            max_timeout: self.max_timeout,
            flags: self.flags,
            rotate: self.rotate,
            lookups: self.lookups,
            edns_size: self.edns_size,
            sources: AddrList::of(alloc, self.sources.as_slice())?,
        })
    }
}
