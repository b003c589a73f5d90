//! Room for datagrams that come while the server is at work.

use libc::net as c;
use mio::net::UdpSocket;
use std::os::fd::AsRawFd;

/// The receive buffer that is asked for, in bytes, so that a burst of 4,096 queries has room: Linux counts some 830 bytes
/// for each.
const RECEIVE_BUFFER: i32 = 8 << 20;

/// Linux tells twice what it gives, for its own records of what is kept (socket(7), `SO_RCVBUF`).
const TOLD_FOR_GIVEN: u32 = 2;

/// Asks for a large receive buffer. The system may give less (`net.core.rmem_max`).
pub fn widen(socket: &UdpSocket) {
    let mut value = [0u8; 16];
    value[..4].copy_from_slice(&RECEIVE_BUFFER.to_ne_bytes());
    let _ = unsafe { c::setsockopt(socket.as_raw_fd(), c::SOL_SOCKET, c::SO_RCVBUF, &value, 4) };
}

/// The bytes of the receive buffer that the system gave, if it tells them.
pub fn receive_buffer(socket: &UdpSocket) -> Option<u32> {
    let mut value = [0u8; 16];
    let mut len = 4u32;
    let fd = socket.as_raw_fd();
    let told = unsafe { c::getsockopt(fd, c::SOL_SOCKET, c::SO_RCVBUF, &mut value, &mut len) };
    if told < 0 {
        return None;
    }
    let [first, second, third, fourth, ..] = value;
    Some(u32::from_ne_bytes([first, second, third, fourth]) / TOLD_FOR_GIVEN)
}
