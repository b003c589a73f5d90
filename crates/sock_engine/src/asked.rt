//! The identifiers that were sent from a socket, and how often each was answered.

ghost use Rattle.std.specs.Prelude.{IsTrue};
ghost use Rattle.sock_engine.specs.Reply.{IsReply};

use crate::reply::{query_id, reply_id};
use std::alloc::{AllocError, Global};

/// How many queries a socket serves at most: the next ones go out of another port (RFC 5452, section 9.2).
const QUERIES_MOST: usize = 128;

/// A socket that has served so many, and has none open, serves no more.
const QUERIES_FEW: usize = 16;

/// How many replies are received at most for each query, the true one behind wrong ones among them.
const REPLIES_MOST: u8 = 255;

/// An identifier that was sent, and how many replies have come with it.
#[derive(Clone, Copy)]
struct Sending {
    id: u16,
    replies: u8,
}

/// The queries of a socket. An identifier is open from its first query until the socket is closed, but for that a query
/// has at most 255 replies: what comes first may be a wrong reply, or the query may be sent again.
#[derive(Drop)]
pub(crate) struct Asked {
    sendings: Vec<Sending>,
    /// Behind the query that had a reply last: mostly the next reply is of the one there.
    next: usize,
    /// How many queries have had no reply.
    unanswered: u64,
    /// It served more queries than have a place here, since no other socket could be opened: each identifier is open.
    is_beyond: bool,
    /// It serves no more.
    is_spent: bool,
}

impl Asked {
    /// None yet.
    pub(crate) fn make(alloc: Global) -> Result<Asked, AllocError> {
        Ok(Asked {
            sendings: Vec::with_capacity(alloc, QUERIES_MOST)?,
            next: 0,
            unanswered: 0,
            is_beyond: false,
            is_spent: false,
        })
    }

    /// Notes a query that was sent.
    pub(crate) fn note(&mut self, query: &[u8]) {
        self.unanswered = self.unanswered.saturating_add(1);
        let Some(id) = query_id(query) else {
            return;
        };
        if self.sendings.len() >= QUERIES_MOST
            || self.sendings.push(Sending { id, replies: 0 }).is_err()
        {
            self.is_beyond = true;
        }
    }

    /// Whether a datagram may answer a query of this socket. It counts as a reply of that.
    pub(crate) fn takes(&mut self, datagram: &[u8]) -> bool
        ensures { IsTrue result → IsReply datagram.now }
    {
        match reply_id(datagram) {
            Some(id) => self.takes_id(id),
            None => false,
        }
    }

    /// Whether this identifier is open. The first reply of a query answers it.
    fn takes_id(&mut self, id: u16) -> bool {
        if self.raise(id, 0) {
            self.unanswered = self.unanswered.saturating_sub(1);
            return true;
        }
        if self.is_beyond {
            self.unanswered = self.unanswered.saturating_sub(1);
        }
        self.is_beyond || self.raise(id, REPLIES_MOST - 1)
    }

    /// Counts a reply of a query with this identifier that has had at most so many, if there is one. The search begins
    /// behind the last one that was found. Of queries with one identifier it doesn't matter which is found.
    fn raise(&mut self, id: u16, replies: u8) -> bool {
        let from = self.next.min(self.sendings.len());
        let (early, late) = self.sendings.as_mut_slice().split_at_mut(from);
        let found = match raise_in(late, id, replies) {
            Some(index) => from.saturating_add(index),
            None => match raise_in(early, id, replies) {
                Some(index) => index,
                None => return false,
            },
        };
        self.next = found.saturating_add(1);
        true
    }

    /// Whether each query has had a reply.
    pub(crate) fn is_answered(&self) -> bool {
        self.unanswered == 0
    }

    /// How many queries have had none.
    pub(crate) fn unanswered(&self) -> u64 {
        self.unanswered
    }

    /// It serves no more, as where a send failed.
    pub(crate) fn spend(&mut self) {
        self.is_spent = true;
    }

    /// Whether another socket is to serve the next query.
    pub(crate) fn is_spent(&self) -> bool {
        let served = self.sendings.len();
        self.is_spent
            || self.is_beyond
            || served >= QUERIES_MOST
            || served >= QUERIES_FEW && self.is_answered()
    }
}

/// Counts a reply of the first of these queries with this identifier that has had at most so many, and answers where it is.
fn raise_in(sendings: &mut [Sending], id: u16, replies: u8) -> Option<usize> {
    for index in 0..sendings.len() {
        let sending = sendings[index];
        if sending.id == id && sending.replies <= replies {
            sendings[index].replies = sending.replies.saturating_add(1);
            return Some(index);
        }
    }
    None
}
