//! The bare loop: a datagram is sent for each that comes, and nothing else is done.

use crate::load::{Load, Spent};
use crate::room::widen;
use crate::served::local;
use std::io;
use std::net::{Net, UdpSocket};
use std::time::{CpuClock, Duration};

/// A query for the addresses of example.com, whose first two bytes are its identifier (RFC 1035, section 4.1).
const QUERY: &[u8; 29] = b"\0\0\x01\0\0\x01\0\0\0\0\0\0\x07example\x03com\0\0\x01\0\x01";

/// Sends the queries of the load, and receives their replies, until none comes for two seconds.
pub fn ask<R: Net + CpuClock>(rt: &R, load: &Load) -> io::Result<Spent> {
    let socket = UdpSocket::bind(rt, local(0))?;
    widen(&socket);
    socket.connect(local(load.port))?;
    socket.set_read_timeout(Some(Duration::from_secs(2)))?;
    let begun = rt.thread_cpu_time()?;
    let answered = exchange(&socket, load);
    Ok(Spent {
        answered,
        nanos: rt.thread_cpu_time()?.saturating_sub(begun).as_nanos(),
        at_end: 0,
    })
}

/// The same, and how many replies came.
fn exchange(socket: &UdpSocket, load: &Load) -> u64 {
    let mut sent = 0;
    for _ in 0..load.window.min(load.count) {
        send(socket, sent);
        sent = sent.saturating_add(1);
    }
    let mut buffer = [0u8; 512];
    let mut answered = 0u64;
    for _ in 0..load.count {
        if socket.recv(&mut buffer).is_err() {
            return answered;
        }
        answered = answered.saturating_add(1);
        if sent < load.count {
            send(socket, sent);
            sent = sent.saturating_add(1);
        }
    }
    answered
}

/// Sends the query with this number's lowest bits as its identifier.
fn send(socket: &UdpSocket, number: u64) {
    let mut query = *QUERY;
    query[0] = (number / 256 % 256) as u8;
    query[1] = (number % 256) as u8;
    let _ = socket.send(&query);
}
