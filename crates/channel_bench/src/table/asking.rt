//! A channel with one owner, whose requests are answered in the order in which they were asked.

use crate::failed::Failed;
use crate::requests::{ask, ask_all};
use chan_types::{Quiet, Status};
use channel_journal::ChannelJournal;
use channel_model::{Begun, Desk};
use channel_table::Alone;
use std::alloc::Global;
use std::collections::VecDeque;

/// The reply with identifier 0 and the address 192.0.2.1 to a query for example.com (RFC 1035, section 4.1).
const REPLY: [u8; 45] =
    *b"\0\0\x81\x80\0\x01\0\x01\0\0\0\0\x07example\x03com\0\0\x01\0\x01\xc0\x0c\0\x01\0\x01\0\0\0\x3c\0\x04\xc0\0\x02\x01";

/// The identifiers of the attempts, the oldest first.
#[derive(Drop)]
struct Attempts {
    ids: VecDeque<u16>,
    /// The random word of the last one.
    word: u16,
}

impl Attempts {
    /// None yet.
    fn new(alloc: Global) -> Attempts {
        Attempts {
            ids: VecDeque::new(alloc),
            word: 0,
        }
    }

    /// Begins an attempt of the first request that waits.
    fn begin<J: ChannelJournal>(&mut self, desk: &mut Alone<Quiet, J>) -> Result<(), Failed> {
        self.word = self.word.wrapping_mul(25_173).wrapping_add(13_849);
        if let Begun::Started { id, .. } = desk.start(self.word, 0, 0)? {
            self.ids.push_back(id).map_err(|_| Failed)?;
        }
        Ok(())
    }

    /// The reply to the oldest attempt comes. Answers whether a request was answered by it.
    fn reply<J: ChannelJournal>(&mut self, desk: &mut Alone<Quiet, J>) -> Result<bool, Failed> {
        let Some(id) = self.ids.pop_front() else {
            return Ok(false);
        };
        let _landed = desk.arrive(0, 0, &reply_to(id))?;
        Ok(succeeds(desk))
    }
}

/// The reply with this identifier.
fn reply_to(id: u16) -> [u8; 45] {
    let mut bytes = REPLY;
    let [high, low] = id.to_be_bytes();
    bytes[0] = high;
    bytes[1] = low;
    bytes
}

/// Takes a request, if one is ready, and answers whether it was answered.
fn succeeds<J: ChannelJournal>(desk: &mut Alone<Quiet, J>) -> bool {
    match desk.take() {
        Some(ticket) => ticket.answer().status == Status::Success,
        None => false,
    }
}

/// Asks for them so many times, and begins an attempt each time.
fn begin_all<J: ChannelJournal>(
    desk: &mut Alone<Quiet, J>,
    attempts: &mut Attempts,
    alloc: Global,
    window: u64,
) -> Result<(), Failed> {
    for _ in 0..window {
        ask(desk, alloc)?;
        attempts.begin(desk)?;
    }
    Ok(())
}

/// So many replies come, each with a new request behind it. Answers how many requests were answered.
fn reply_all<J: ChannelJournal>(
    desk: &mut Alone<Quiet, J>,
    attempts: &mut Attempts,
    alloc: Global,
    replies: u64,
) -> Result<u64, Failed> {
    let mut taken = 0u64;
    for _ in 0..replies {
        taken = taken.wrapping_add(u64::from(attempts.reply(desk)?));
        ask(desk, alloc)?;
        attempts.begin(desk)?;
    }
    Ok(taken)
}

/// So many requests are asked for, and nothing comes. Answers how many were answered, and how many wait.
pub fn pending<J: ChannelJournal>(
    desk: &mut Alone<Quiet, J>,
    alloc: Global,
    window: u64,
) -> Result<(u64, u64), Failed> {
    ask_all(desk, alloc, window)?;
    Ok((0, desk.counts().waiting))
}

/// So many requests are in flight, and so many replies come, each to the oldest attempt, with a new request behind it.
/// Answers how many requests were answered, and how many wait.
pub fn answered<J: ChannelJournal>(
    desk: &mut Alone<Quiet, J>,
    alloc: Global,
    window: u64,
    replies: u64,
) -> Result<(u64, u64), Failed> {
    let taken = taken_by(desk, &mut Attempts::new(alloc), alloc, window, replies)?;
    Ok((taken, desk.counts().waiting))
}

/// How many requests are answered.
fn taken_by<J: ChannelJournal>(
    desk: &mut Alone<Quiet, J>,
    attempts: &mut Attempts,
    alloc: Global,
    window: u64,
    replies: u64,
) -> Result<u64, Failed> {
    begin_all(desk, attempts, alloc, window)?;
    reply_all(desk, attempts, alloc, replies)
}
