//! What the calls of the outside answer.

use dns_message::Bytes;

/// How a datagram or the beginning of a link ended.
#[derive(Clone, Copy, Debug, PartialEq, Eq)]
pub enum Sent {
    /// It was handed over, or lost on its way.
    Sent,
    /// The network failed.
    Failed,
}

/// How a write to a link ended.
#[derive(Clone, Copy, Debug, PartialEq, Eq)]
pub enum Wrote {
    /// So many bytes were taken, the first ones.
    Count(usize),
    /// The link failed.
    Failed,
}

/// What was received.
#[derive(Debug, Drop, PartialEq)]
pub enum Got {
    /// A datagram of this server.
    Datagram(u32, Bytes),
    /// Some bytes of this link, at least one.
    Piece(u64, Bytes),
    /// This link ended.
    Ended(u64),
    /// There is nothing to receive now.
    Nothing,
    /// This server's link failed, link 0 being its datagrams.
    Failed(u32, u64),
}

/// How a wait ended.
#[derive(Clone, Copy, Debug, PartialEq, Eq)]
pub enum Waited {
    /// Something can be received, or it may be the moment that was waited for.
    Woken,
    /// The wait failed.
    Failed,
}

/// What a read of a file gave.
#[derive(Debug, Drop, PartialEq)]
pub enum FileRead {
    /// The whole file.
    Content(Bytes),
    /// There is no file of this path.
    Absent,
    /// The file has more bytes than were asked for at most.
    Large,
    /// The read failed.
    Failed,
}

/// How an output ended.
#[derive(Clone, Copy, Debug, PartialEq, Eq)]
pub enum PutEnd {
    /// All bytes were put.
    Done,
    /// The output failed, behind some of the bytes.
    Failed,
}
