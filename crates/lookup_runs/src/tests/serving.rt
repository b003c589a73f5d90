//! The nameserver of `tns` in a thread, over a port of 127.0.0.1, and the options that name it.

use item_list::Bytes;
use net_addr::{Addr, ServerAddr, ServerList};
use net_world::{MemFiles, MemSink, Sent};
use resolv_options::Options;
use sock_listener::{Bound, RealListener};
use std::alloc::Global;
use std::collections::BTreeMap;
use std::net::{Ipv4Addr, Net, SocketAddr, UdpSocket};
use std::test::Fail;
use test_nameserver::{Listener, run};

/// Two hosts with an address each, and the name of the first one's address (RFC 1035, section 3.5).
const ZONE: &[u8] =
    b"a.test. 60 A 192.0.2.1\nb.test. 60 A 192.0.2.2\n1.2.0.192.in-addr.arpa. 60 PTR a.test.\n";

/// 127.0.0.1.
const LOOPBACK: u32 = 0x7f00_0001;

/// A port that was free just now.
fn free_port<R: Net>(rt: &R) -> Result<u16, Fail> {
    let any = SocketAddr::from((Ipv4Addr::LOCALHOST, 0));
    Ok(UdpSocket::bind(rt, any)?.local_addr()?.port())
}

/// A listener on a port that was free just now, and the port.
pub fn listening(rt: HostRuntime) -> Result<(Bound<RealListener<HostRuntime>>, u16), Fail> {
    let port = free_port(&rt)?;
    let mut inner = RealListener::make(rt);
    match Listener::listen(&mut inner, port)? {
        Sent::Sent => Ok((Bound { inner }, port)),
        Sent::Failed => Err("the port is taken")?,
    }
}

/// Files of which `z` is the zone.
pub fn zone_files(alloc: Global) -> Result<MemFiles, Fail> {
    let mut files = BTreeMap::new(alloc);
    files.insert(String::from_str(alloc, "z")?, Bytes::of(alloc, ZONE)?)?;
    Ok(MemFiles::make(files, Vec::new(alloc)))
}

/// Serves the zone of these files until so many messages have come. Answers the nameserver's exit status.
pub fn served<L: Listener>(
    alloc: Global,
    count: &str,
    files: &mut MemFiles,
    listener: &mut L,
) -> u8 {
    let words = ["--port", "1", "--zone", "z", "--count", count];
    let mut sink = MemSink::make(Vec::new(alloc));
    run(alloc, words.as_slice(), files, &mut sink, listener)
}

/// Options whose one server is at this port of 127.0.0.1.
pub fn options_at(alloc: Global, port: u16) -> Result<Options, Fail> {
    let mut options = Options::plain(alloc)?;
    let server = ServerAddr {
        address: Addr::V4(LOOPBACK),
        port,
    };
    options.set_servers(ServerList::of(alloc, &[server])?);
    Ok(options)
}
