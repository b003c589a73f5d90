//! Setting options: each call sets what its parameters name, and leaves all else.

ghost use Rattle.std.specs.Prelude.{◌≡◌, ◌≤◌, length};

use crate::flags::Flags;
use crate::lookups::Lookups;
use crate::options::Options;
use dns_message::NameList;
use net_addr::{AddrList, ServerList};

impl Options {
    /// Sets the servers, in order.
    pub fn set_servers(&mut self, servers: ServerList)
        requires some { 1 ≤ length servers }
        requires few { length servers ≤ 8 }
        ensures { self.new ≡ record self.old { servers = servers } }
    {
        self.servers = servers;
    }

    /// Sets the machine's own addresses, in order.
    pub fn set_sources(&mut self, sources: AddrList)
        requires { length sources ≤ 8 }
        ensures { self.new ≡ record self.old { sources = sources } }
    {
        self.sources = sources;
    }

    /// Sets the first wait in milliseconds, and how often each server is tried.
    pub fn set_numbers(&mut self, timeout: u32, tries: u8)
        requires timeout { (1 ≤ timeout) × (timeout ≤ 60000) }
        requires tries { (1 ≤ tries) × (tries ≤ 10) }
        ensures { self.new ≡ record self.old { timeout = timeout; tries = tries } }
    {
        self.timeout = timeout;
        self.tries = tries;
    }

    /// Sets the switches, all of them.
    pub fn set_flags(&mut self, flags: Flags)
        ensures { self.new ≡ record self.old { flags = flags } }
    {
        self.flags = flags;
    }

    /// Sets the domains in order, the dots with which a name is asked first, and whether servers take turns.
    pub fn set_search(&mut self, domains: NameList, ndots: u8, rotate: bool)
        requires domains { length domains ≤ 8 }
        requires ndots { ndots ≤ 15 }
        ensures { self.new ≡ record self.old { domains = domains; ndots = ndots; rotate = rotate } }
    {
        self.domains = domains;
        self.ndots = ndots;
        self.rotate = rotate;
    }

    /// Sets the longest wait in milliseconds, where 0 sets none, and the size that an OPT record offers in bytes.
    pub fn set_sizes(&mut self, max_timeout: u32, edns_size: u16)
        requires max_timeout { max_timeout ≤ 3600000 }
        requires edns_size { 512 ≤ edns_size }
        ensures { self.new ≡ record self.old { max_timeout = max_timeout; edns_size = edns_size } }
    {
        self.max_timeout = max_timeout;
        self.edns_size = edns_size;
    }

    /// Sets where addresses are looked for.
    pub fn set_lookups(&mut self, lookups: Lookups)
        ensures { self.new ≡ record self.old { lookups = lookups } }
    {
        self.lookups = lookups;
    }
}
