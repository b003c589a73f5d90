//! What the network brings: a datagram that answers nothing, and replies of a link in their frames.

use item_list::NoMemory;
use std::alloc::Global;

/// How long a reply is in its frame.
pub const FRAME_LENGTH: usize = 47;

/// A reply for the address of example.com, with identifier 0 (RFC 1035, section 4.1), behind its length (section 4.2.2).
const FRAME: [u8; FRAME_LENGTH] =
    *b"\0\x2d\0\0\x81\x80\0\x01\0\x01\0\0\0\0\x07example\x03com\0\0\x01\0\x01\xc0\x0c\0\x01\0\x01\0\0\0\x3c\0\x04\xc0\0\x02\x01";

/// That frame with this identifier.
fn frame_of(id: u16) -> [u8; FRAME_LENGTH] {
    let mut frame = FRAME;
    let [high, low] = id.to_be_bytes();
    frame[2] = high;
    frame[3] = low;
    frame
}

/// The reply in a frame, without its length.
pub fn unframed(frame: &[u8]) -> &[u8] {
    frame.get(2..).unwrap_or(&[])
}

/// A datagram that answers nothing: no query has its identifier.
pub fn stray(alloc: Global) -> Result<Vec<u8>, NoMemory> {
    Ok(unframed(&frame_of(0x1234)).to_vec(alloc)?)
}

/// The frames of replies to the queries with the identifiers from 0 on.
pub fn replies(alloc: Global, queries: u64) -> Result<Vec<u8>, NoMemory> {
    let mut bytes = Vec::new(alloc);
    for query in 0..queries {
        bytes.extend_from_slice(&frame_of((query % 65_536) as u16))?;
    }
    Ok(bytes)
}
