//! Room for what comes to a socket while nobody receives.

use libc::net as c;
use std::net::UdpSocket;
use std::os::fd::AsRawFd;

/// The receive buffer that is asked for, in bytes, so that 10,000 queries lose nothing: Linux counts some 830 bytes a query
/// against it, and goes on counting what was received already up to a quarter of the buffer. The system may give less
/// (`net.core.rmem_max`).
const RECEIVE_BUFFER: i32 = 32 << 20;

/// Asks for a large receive buffer, so that a window of queries loses nothing.
pub fn widen(socket: &UdpSocket) {
    let mut value = [0u8; 16];
    value[..4].copy_from_slice(&RECEIVE_BUFFER.to_ne_bytes());
    let _ = unsafe { c::setsockopt(socket.as_raw_fd(), c::SOL_SOCKET, c::SO_RCVBUF, &value, 4) };
}
