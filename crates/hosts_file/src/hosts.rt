//! What a hosts file says.

ghost use Rattle.std.specs.Prelude.{◌≡◌, []};

use crate::index::HashedName;
use dns_message::{Name, NameList};
use net_addr::Addr;
use std::alloc::Global;
use std::fmt;
use std::marker::Model;

/// What a line of a hosts file says: an address, and the names of the host that has it.
#[derive(Debug, Drop)]
pub struct HostLine {
    pub address: Addr,
    /// The first name of the line.
    pub canonical: Name,
    /// The other names of the line, in order.
    pub aliases: NameList,
}

/// A hosts file. Contracts see the list of its lines, in file order.
#[derive(Drop)]
pub struct Hosts {
    pub(crate) lines: Vec<HostLine>,
    /// The names of all lines, in the order of their hashes, by which a name is found.
    pub(crate) names: Vec<HashedName>,
}

impl Model for Hosts {
    ghost use Rattle.std.specs.Prelude.{List};
    ghost use Rattle.hosts_file.specs.declared.hosts.HostLine.{HostLine};
    ghost use Rattle.hosts_file.specs.Index.{IsNameIndex};

    ghost Value = { List HostLine };

    ghost view = { λ hosts. hosts.lines.items };

    ghost invariant = { λ hosts. IsNameIndex hosts.lines.items hosts.names.items };
}

impl fmt::Debug for Hosts {
    fn fmt<W: fmt::Write>(&self, f: &mut fmt::Formatter<W>) -> fmt::Result {
        f.debug_struct("Hosts").field("lines", &self.lines).finish()
    }
}

impl Hosts {
    /// A hosts file without lines. It takes no memory.
    pub fn empty(alloc: Global) -> Hosts
        ensures { result ≡ [] }
    {
        Hosts {
            lines: Vec::new(alloc),
            names: Vec::new(alloc),
        }
    }
}
