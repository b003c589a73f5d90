//! Attempts, and the replies to them.

ghost use Rattle.std.specs.Prelude.{◌≤◌, length};
ghost use Rattle.shared_channel.specs.Staying.{StaysSettled};

use chan_types::NoMemory;
use channel_model::{Begun, Desk};
use completion_ticket::Scripted;
use shared_channel::Place;
use std::sync::Wait;

/// The reply 192.0.2.1 to the query for the addresses of IPv4 of `x.test.`, with identifier 0 (RFC 1035, section 4.1).
pub const ADDRESS_REPLY: [u8; 40] =
    *b"\0\0\x81\x80\0\x01\0\x01\0\0\0\0\x01x\x04test\0\0\x01\0\x01\xc0\x0c\0\x01\0\x01\0\0\0\x3c\0\x04\xc0\0\x02\x01";

/// The reply `host.test.` to the query for the names of 192.0.2.1, with identifier 0 (RFC 1035, sections 3.5 and 4.1).
const NAME_REPLY: [u8; 63] =
    *b"\0\0\x81\x80\0\x01\0\x01\0\0\0\0\x011\x012\x010\x03192\x07in-addr\x04arpa\0\0\x0c\0\x01\xc0\x0c\0\x0c\0\x01\0\0\0\x3c\0\x0b\x04host\x04test\0";

/// An attempt that began: its server, its link and its identifier.
#[derive(Clone, Copy)]
pub struct Attempt {
    pub server: u32,
    pub link: u64,
    pub id: u16,
}

/// Begins an attempt, where a leg waits, and takes in the reply 192.0.2.1 to it. Tells whether one was begun.
pub fn replied_address<R: Wait>(place: &mut Place<'_, Scripted, R>) -> bool
    ensures { StaysSettled place.old place.new }
{
    let mut reply = ADDRESS_REPLY;
    replied(place, &mut reply)
}

/// Begins an attempt, where a leg waits, and takes in the reply `host.test.` to it. Tells whether one was begun.
pub fn replied_name<R: Wait>(place: &mut Place<'_, Scripted, R>) -> bool
    ensures { StaysSettled place.old place.new }
{
    let mut reply = NAME_REPLY;
    replied(place, &mut reply)
}

/// Begins an attempt, where a leg waits, and takes in this reply to it. Tells whether one was begun.
#[tactic(auto, using(shared_channel::proofs::Theorems::stays_more))]
fn replied<R: Wait>(place: &mut Place<'_, Scripted, R>, reply: &mut [u8]) -> bool
    requires { 2 ≤ length reply.old }
    ensures { StaysSettled place.old place.new }
{
    match begun(place, 0) {
        Some(attempt) => answered(place, attempt, reply),
        None => false,
    }
}

/// Begins an attempt at this moment, with an identifier from 9 upwards.
pub fn begun<R: Wait>(place: &mut Place<'_, Scripted, R>, at: u64) -> Option<Attempt>
    ensures { StaysSettled place.old place.new }
{
    attempt_of(place.start(9, 0, at))
}

/// What began, if something did.
pub fn attempt_of(begun: Result<Begun, NoMemory>) -> Option<Attempt> {
    match begun {
        Ok(
            Begun::Started {
                server,
                link,
                id,
                ..
            },
        ) => Some(Attempt { server, link, id }),
        Ok(Begun::Idle) | Ok(Begun::NoId) | Err(_) => None,
    }
}

/// Takes in the reply to an attempt.
fn answered<R: Wait>(place: &mut Place<'_, Scripted, R>, attempt: Attempt, reply: &mut [u8]) -> bool
    requires { 2 ≤ length reply.old }
    ensures { StaysSettled place.old place.new }
{
    let [high, low] = attempt.id.to_be_bytes();
    reply[0] = high;
    reply[1] = low;
    place.arrive(attempt.server, attempt.link, reply).is_ok()
}
