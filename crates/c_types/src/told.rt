//! What calls write for C, in C's own form.

/// An attempt that was begun: what is to be sent, and where to.
#[repr(C)]
#[derive(Drop)]
pub struct ToldAttempt {
    /// The request's number.
    pub number: u64,
    /// 0 for a datagram, else the number of a link over TCP.
    pub link: u64,
    /// How many bytes are to be sent.
    pub length: usize,
    /// The key of the server.
    pub server: u32,
    /// The query's identifier.
    pub id: u16,
    /// The port at which the server listens.
    pub port: u16,
    /// The leg of the request.
    pub leg: u8,
}

/// A leg of a request: one of its questions.
#[repr(C)]
#[derive(Drop)]
pub struct ToldLeg {
    /// The request's number.
    pub number: u64,
    pub leg: u8,
}

/// A request that was completed.
#[repr(C)]
#[derive(Drop)]
pub struct ToldRequest {
    /// The request's number.
    pub number: u64,
    /// How many bytes its reply has.
    pub message: usize,
    /// How many addresses it has.
    pub addresses: usize,
    /// The status, by the number that c-ares gives it.
    pub status: u8,
}

/// How many requests are pending and ready, and how many legs wait and are in flight.
#[repr(C)]
#[derive(Drop)]
pub struct ToldCounts {
    pub pending: u64,
    pub ready: u64,
    pub waiting: u64,
    pub flying: u64,
}
