//! The nameserver of `tns` in a thread, over a port of 127.0.0.1.

use item_list::Bytes;
use net_world::{MemFiles, MemSink, Sent};
use sock_listener::{Bound, RealListener};
use std::alloc::Global;
use std::collections::BTreeMap;
use std::net::{Ipv4Addr, Net, SocketAddr, UdpSocket};
use std::test::Fail;
use std::thread;
use std::thread::{JoinHandle, Threads};
use test_nameserver::{Listener, run};

/// A port that was free just now.
fn free_port<R: Net>(rt: &R) -> Result<u16, Fail> {
    let any = SocketAddr::from((Ipv4Addr::LOCALHOST, 0));
    Ok(UdpSocket::bind(rt, any)?.local_addr()?.port())
}

/// Files of which `z` is this zone.
fn zone_files(alloc: Global, zone: &[u8]) -> Result<MemFiles, Fail> {
    let path = String::from_str(alloc, "z")?;
    let bytes = Bytes::of(alloc, zone)?;
    let mut files = BTreeMap::new(alloc);
    files.insert(path, bytes)?;
    Ok(MemFiles::make(files, Vec::new(alloc)))
}

/// Serves the zone of these files until so many messages have come. Answers the nameserver's exit status.
fn served<L: Listener>(
    alloc: Global,
    port: &str,
    count: &str,
    files: &mut MemFiles,
    listener: &mut L,
) -> u8 {
    let words = ["--port", port, "--zone", "z", "--count", count];
    let mut sink = MemSink::make(Vec::new(alloc));
    run(alloc, words.as_slice(), files, &mut sink, listener)
}

/// A listener on a port that was free just now, and the port.
fn listening(rt: HostRuntime) -> Result<(Bound<RealListener<HostRuntime>>, u16), Fail> {
    let port = free_port(&rt)?;
    let mut inner = RealListener::make(rt);
    match Listener::listen(&mut inner, port)? {
        Sent::Sent => Ok((Bound { inner }, port)),
        Sent::Failed => Err("the port is taken")?,
    }
}

/// A thread in which the nameserver serves this zone until so many messages have come, and its port.
pub fn serving<R: Threads>(
    threads: &R,
    rt: HostRuntime,
    zone: &[u8],
    count: &'static str,
) -> Result<(JoinHandle<u8>, u16), Fail> {
    let alloc = rt.alloc();
    let (mut listener, number) = listening(rt)?;
    let mut files = zone_files(alloc, zone)?;
    let port = format!(in alloc; "{number}")?;
    let child = thread::spawn(threads, move || {
        served(alloc, port.as_str(), count, &mut files, &mut listener)
    })?;
    Ok((child, number))
}
