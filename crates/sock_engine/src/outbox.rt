//! Datagrams that wait to be sent: a burst is spread, so that the server's own socket has room for it.

use dns_message::Bytes;
use std::alloc::Global;
use std::collections::VecDeque;

/// While more queries of a server than these are in flight, further ones wait. The default receive buffer of Linux, of 212,992
/// bytes, has room for so many: some 830 bytes are counted for each query.
const IN_FLIGHT_MOST: u64 = 256;

/// So many of them are sent in each millisecond all the same: replies may be far away, or lost.
const EACH_MILLI: u64 = 32;

/// Milliseconds in which nothing was sent count up to this.
const MILLIS_MOST: u64 = 10;

/// How many wait at most. A further one is sent at once.
const WAITING_MOST: usize = 16_384;

/// The datagrams to a server that wait, in order.
#[derive(Drop)]
pub(crate) struct Outbox {
    alloc: Global,
    waiting: VecDeque<Bytes>,
    /// How many queries that were sent have had no reply, as far as the last look told.
    in_flight: u64,
    /// How many more may be sent before the next round.
    further: u64,
    /// The system's clock at the last round.
    at: u64,
}

impl Outbox {
    /// An empty one.
    pub(crate) fn make(alloc: Global) -> Outbox {
        Outbox {
            alloc,
            waiting: VecDeque::new(alloc),
            in_flight: 0,
            further: 0,
            at: 0,
        }
    }

    /// Whether nothing waits.
    pub(crate) fn is_empty(&self) -> bool {
        self.waiting.is_empty()
    }

    /// Adds a datagram, where it has to wait. Else it is to be sent now, as where memory is wanting.
    pub(crate) fn holds_back(&mut self, datagram: &[u8]) -> bool {
        (self.in_flight > IN_FLIGHT_MOST || !self.waiting.is_empty()) && self.add(datagram)
    }

    /// Adds a datagram, where there is room and memory for it.
    pub(crate) fn add(&mut self, datagram: &[u8]) -> bool {
        if self.waiting.len() >= WAITING_MOST {
            return false;
        }
        match Bytes::of(self.alloc, datagram) {
            Ok(copy) => self.waiting.push_back(copy).is_ok(),
            Err(_) => false,
        }
    }

    /// Begins a round of sends at this moment of the system's clock.
    pub(crate) fn begin_round(&mut self, clock: u64) {
        let millis = clock.saturating_sub(self.at).min(MILLIS_MOST);
        self.further = millis.saturating_mul(EACH_MILLI);
        self.at = clock;
    }

    /// Takes the first datagram, if it may be sent in this round.
    pub(crate) fn take(&mut self) -> Option<Bytes> {
        if self.in_flight > IN_FLIGHT_MOST {
            if self.further == 0 {
                return None;
            }
            self.further = self.further.saturating_sub(1);
        }
        self.waiting.pop_front()
    }

    /// Puts a datagram back to the front, for which the system has no room. For want of memory it is lost.
    pub(crate) fn put_back(&mut self, datagram: Bytes) {
        let _ = self.waiting.push_front(datagram);
    }

    /// Notes that a query was sent.
    pub(crate) fn note_sent(&mut self) {
        self.in_flight = self.in_flight.saturating_add(1);
    }

    /// Notes how many queries have had no reply.
    pub(crate) fn note_in_flight(&mut self, count: u64) {
        self.in_flight = count;
    }
}
