//! Addresses, and servers by address and port.

use dns_message::ItemList;

/// An address, its first byte the highest.
#[derive(Clone, Copy, Debug, PartialEq, Eq)]
pub enum Addr {
    /// An IPv4 address.
    V4(u32),
    /// An IPv6 address.
    V6(u128),
}

/// Which addresses are wanted.
#[derive(Clone, Copy, Debug, PartialEq, Eq)]
pub enum Family {
    /// Addresses of both families.
    Any,
    /// IPv4 addresses alone.
    V4,
    /// IPv6 addresses alone.
    V6,
}

/// Where a server listens.
#[derive(Clone, Copy, Debug, PartialEq, Eq)]
pub struct ServerAddr {
    pub address: Addr,
    pub port: u16,
}

/// A list of addresses.
pub type AddrList = ItemList<Addr>;

/// A list of servers.
pub type ServerList = ItemList<ServerAddr>;
