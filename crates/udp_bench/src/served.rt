//! A plain server: it answers each query with one address.

use crate::room::widen;
use std::io;
use std::net::{Ipv4Addr, Net, SocketAddr, UdpSocket};
use std::time::Duration;

/// The record that answers: an address of the name that is asked (RFC 1035, sections 3.2.1 and 4.1.4).
const ANSWER: &[u8; 16] = b"\xc0\x0c\0\x01\0\x01\0\0\0\x3c\0\x04\xc0\0\x02\x01";

/// The length of a message's header (section 4.1.1).
const HEADER_LEN: usize = 12;

/// This port of 127.0.0.1.
pub fn local(port: u16) -> SocketAddr {
    SocketAddr::from((Ipv4Addr::LOCALHOST, port))
}

/// Answers each query that comes to this port, until nothing comes for ten seconds.
pub fn serve<R: Net>(rt: &R, port: u16) -> io::Result<()> {
    let socket = UdpSocket::bind(rt, local(port))?;
    widen(&socket);
    socket.set_read_timeout(Some(Duration::from_secs(10)))?;
    let mut buffer = [0u8; 512];
    for _ in 0..u64::MAX {
        let Ok((len, from)) = socket.recv_from(&mut buffer) else {
            return Ok(());
        };
        if let Some(len) = answer(&mut buffer, len) {
            let _ = socket.send_to(buffer.get(..len).unwrap_or(&[]), from);
        }
    }
    Ok(())
}

/// Makes the reply of a query without further records that has so many bytes, and answers how many the reply has.
fn answer(buffer: &mut [u8; 512], len: usize) -> Option<usize> {
    let end = len.saturating_add(ANSWER.len());
    if len < HEADER_LEN || end > buffer.len() {
        return None;
    }
    buffer[2] |= 0x80;
    buffer[3] |= 0x80;
    buffer[7] = 1;
    buffer.get_mut(len..end)?.copy_from_slice(ANSWER);
    Some(end)
}
