//! The real forms over loopback, files that the test makes, and standard output.
//!
//! A test makes its sockets and its network, and lends them to a function that answers whether all is as it should be: a
//! check is long where a network may be dropped behind a `?`.

use dns_message::{Bytes, NoMemory};
use net_addr::{Addr, ServerAddr};
use net_world::{FileRead, Files, Got, PutEnd, Sent, Sink, Waited, World, Wrote};
use sock_engine::*;
use std::alloc::Global;
use std::net::{Ipv4Addr, SocketAddr, UdpSocket};
use std::test::*;

mod calls;
mod clock;
mod files;
mod links;
mod servers;
mod sockets;
mod strays;
mod unmade;

/// A query of a header and four bytes (RFC 1035, section 4.1.1).
const QUERY: &[u8] = b"na\x01\0\0\x01\0\0\0\0\0\0name";

/// The same with the bit QR: a reply, as an echo of it gives.
const REPLY: &[u8] = b"na\x81\0\0\x01\0\0\0\0\0\0name";

/// Other replies with its identifier.
const ONE: &[u8] = b"na\x81\x80\0\x01\0\0\0\0\0\0one";

const TWO: &[u8] = b"na\x81\x80\0\x01\0\0\0\0\0\0two";

const THREE: &[u8] = b"na\x81\x80\0\x01\0\0\0\0\0\0three";

/// A server on 127.0.0.1.
fn local(port: u16) -> ServerAddr {
    ServerAddr {
        address: Addr::V4(0x7f00_0001),
        port,
    }
}

fn any_local() -> SocketAddr {
    SocketAddr::from((Ipv4Addr::LOCALHOST, 0))
}

/// The port of a socket.
fn port_of(far: &UdpSocket) -> Result<u16, Fail> {
    Ok(far.local_addr()?.port())
}

/// Makes a reply of a query.
fn set_reply(message: &mut [u8]) {
    if let Some(flags) = message.get_mut(2) {
        *flags |= 0x80;
    }
}
