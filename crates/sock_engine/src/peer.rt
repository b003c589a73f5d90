//! The addresses of the two ends of a socket.

ghost use Rattle.std.specs.Prelude.{◌≡◌};
ghost use Rattle.std.specs.Net.Socket.{socket_ip, socket_port};
ghost use Rattle.sock_engine.specs.Peer.{IsAddressOf};

use net_addr::{Addr, ServerAddr};
use std::net::{IpAddr, Ipv4Addr, Ipv6Addr, SocketAddr};

/// The server's address and port.
pub(crate) fn peer_of(server: &ServerAddr) -> SocketAddr
    ensures address { IsAddressOf server.now.address (socket_ip result) }
    ensures port { socket_port result ≡ server.now.port }
{
    SocketAddr::new(ip_of(server.address), server.port)
}

fn ip_of(address: Addr) -> IpAddr
    ensures { IsAddressOf address result }
{
    match address {
        Addr::V4(bits) => IpAddr::V4(Ipv4Addr::from_bits(bits)),
        Addr::V6(bits) => IpAddr::V6(Ipv6Addr::from_bits(bits)),
    }
}

/// Any address of the peer's family, and port 0: the system draws a port at random (RFC 5452, section 9.2).
pub(crate) fn any_of(peer: SocketAddr) -> SocketAddr
    ensures { socket_port result ≡ 0 }
{
    match peer {
        SocketAddr::V4(_) => SocketAddr::new(IpAddr::V4(Ipv4Addr::UNSPECIFIED), 0),
        SocketAddr::V6(_) => SocketAddr::new(IpAddr::V6(Ipv6Addr::UNSPECIFIED), 0),
    }
}
