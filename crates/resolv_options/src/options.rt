//! The options of a channel and their limits, the defaults, and what one may ask of them.

ghost use Rattle.std.specs.Prelude.{◌≡◌, IfOk};
ghost use Rattle.resolv_options.specs.Values.{AreWithinLimits};
ghost use Rattle.resolv_options.specs.Defaults.{plain_values};

use crate::flags::Flags;
use crate::lookups::Lookups;
use dns_message::NameList;
use item_list::NoMemory;
use net_addr::{Addr, AddrList, ServerAddr, ServerList};
use std::alloc::Global;
use std::marker::Model;

/// The port of a name server (RFC 1035, section 4.2).
pub(crate) const DNS_PORT: u16 = 53;

/// The bytes that an OPT record offers where nothing else is set: a datagram of that size isn't cut on its way, since any
/// IPv6 link takes packets of 1,280 bytes (RFC 8200, section 5), of which 48 are headers.
const PLAIN_SIZE: u16 = 1232;

/// The server that is asked where none is set: this machine's own, at 127.0.0.1.
pub(crate) const LOCAL_SERVER: ServerAddr = ServerAddr {
    address: Addr::V4(0x7f00_0001),
    port: DNS_PORT,
};

/// The options of a channel, within the limits of this project's profile. Contracts see them as a record of values.
#[derive(Debug, Drop)]
pub struct Options {
    pub(crate) servers: ServerList,
    pub(crate) domains: NameList,
    pub(crate) ndots: u8,
    pub(crate) tries: u8,
    pub(crate) timeout: u32,
    pub(crate) max_timeout: u32,
    pub(crate) flags: Flags,
    pub(crate) rotate: bool,
    pub(crate) lookups: Lookups,
    pub(crate) edns_size: u16,
    pub(crate) sources: AddrList,
}

impl Model for Options {
    ghost use Rattle.resolv_options.specs.Values.{OptionValues, AreWithinLimits};

    ghost Value = { OptionValues };

    ghost use Rattle.resolv_options.specs.Fields.{values_of};

    ghost view = { values_of };

    ghost invariant = { λ fields. AreWithinLimits (values_of fields) };
}

impl Options {
    /// The default options: the server 127.0.0.1, and no domain.
    pub fn plain(alloc: Global) -> Result<Options, NoMemory>
        ensures { IfOk result (λ options. options ≡ plain_values) }
    {
        Ok(Options {
            servers: ServerList::of(alloc, &[LOCAL_SERVER])?,
            domains: NameList::new(alloc),
            ndots: 1,
            tries: 3,
            timeout: 2000,
            max_timeout: 0,
            flags: Flags {
                usevc: false,
                primary: false,
                igntc: false,
                norecurse: false,
                nosearch: false,
                nocheckresp: false,
                edns: true,
                mix: false,
            },
            rotate: false,
            lookups: Lookups::FilesDns,
            edns_size: PLAIN_SIZE,
            sources: AddrList::new(alloc),
        })
    }

    /// The servers to ask, 1 to 8 of them.
    pub fn servers(&self) -> &ServerList
        ensures value { result.now ≡ self.now.servers }
        ensures limits { AreWithinLimits self.now }
    {
        &self.servers
    }

    /// The domains of the search list, at most 8.
    pub fn domains(&self) -> &NameList
        ensures value { result.now ≡ self.now.domains }
        ensures limits { AreWithinLimits self.now }
    {
        &self.domains
    }

    /// With how many dots a name is asked as it is before the domains are tried, 0 to 15.
    pub fn ndots(&self) -> u8
        ensures value { result ≡ self.now.ndots }
        ensures limits { AreWithinLimits self.now }
    {
        self.ndots
    }

    /// How often each server is tried, 1 to 10.
    pub fn tries(&self) -> u8
        ensures value { result ≡ self.now.tries }
        ensures limits { AreWithinLimits self.now }
    {
        self.tries
    }

    /// How long the first attempt waits, 1 to 60,000 ms.
    pub fn timeout(&self) -> u32
        ensures value { result ≡ self.now.timeout }
        ensures limits { AreWithinLimits self.now }
    {
        self.timeout
    }

    /// The longest wait of an attempt, up to 3,600,000 ms. 0 sets no longest wait.
    pub fn max_timeout(&self) -> u32
        ensures value { result ≡ self.now.max_timeout }
        ensures limits { AreWithinLimits self.now }
    {
        self.max_timeout
    }

    /// The switches.
    pub fn flags(&self) -> Flags
        ensures value { result ≡ self.now.flags }
        ensures limits { AreWithinLimits self.now }
    {
        self.flags
    }

    /// Whether requests begin with different servers in turn.
    pub fn rotate(&self) -> bool
        ensures value { result ≡ self.now.rotate }
        ensures limits { AreWithinLimits self.now }
    {
        self.rotate
    }

    /// Where addresses are looked for.
    pub fn lookups(&self) -> Lookups
        ensures value { result ≡ self.now.lookups }
        ensures limits { AreWithinLimits self.now }
    {
        self.lookups
    }

    /// The size that an OPT record offers, 512 to 65,535 bytes (RFC 6891, section 6.2.3).
    pub fn edns_size(&self) -> u16
        ensures value { result ≡ self.now.edns_size }
        ensures limits { AreWithinLimits self.now }
    {
        self.edns_size
    }

    /// The machine's own addresses, by which addresses are sorted (RFC 6724), at most 8.
    pub fn sources(&self) -> &AddrList
        ensures value { result.now ≡ self.now.sources }
        ensures limits { AreWithinLimits self.now }
    {
        &self.sources
    }
}
