//! An address as the standard library has it, and back.
ghost use Rattle.std.specs.Prelude.{◌≡◌};
ghost use Rattle.net_addr.specs.Addr.{IsAddr};
ghost use Rattle.net_addr.specs.Ip.{SameIp};

use crate::addr::Addr;
use std::net::{IpAddr, Ipv4Addr, Ipv6Addr};

/// The same address.
pub fn ip_of(address: Addr) -> IpAddr
    ensures same { SameIp result address }
    ensures fits { IsAddr address }
{
    match address {
        Addr::V4(bits) => IpAddr::V4(Ipv4Addr::from_bits(bits)),
        Addr::V6(bits) => IpAddr::V6(Ipv6Addr::from_bits(bits)),
    }
}

/// The same address.
pub fn addr_of(ip: IpAddr) -> Addr
    ensures { SameIp ip result }
{
    match ip {
        IpAddr::V4(ip) => Addr::V4(ip.to_bits()),
        IpAddr::V6(ip) => Addr::V6(ip.to_bits()),
    }
}
