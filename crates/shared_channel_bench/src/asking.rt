//! What both kinds of channel are asked, and how they are answered.

use chan_types::{Bytes, Calls, NoMemory, Orders, Script, Spec};
use completion_ticket::{Callback, Scripted};
use std::alloc::Global;

/// No order is given.
pub const NONE: Orders = Orders {
    follow: false,
    first: false,
    quit: false,
};

/// The addresses of IPv4 of `x.test.`
pub fn query(alloc: Global) -> Result<Spec, NoMemory> {
    Ok(Spec::Query {
        name: Bytes::of(alloc, b"x.test.")?,
        kind: 1,
        class: 1,
    })
}

/// A callback that commands nothing.
pub fn callback(alloc: Global) -> Callback<Scripted> {
    Callback::scripted(Script::blank(alloc, 7))
}

/// The reply 192.0.2.1 to the query for these addresses, with identifier 0 (RFC 1035, section 4.1).
const REPLY: [u8; 40] =
    *b"\0\0\x81\x80\0\x01\0\x01\0\0\0\0\x01x\x04test\0\0\x01\0\x01\xc0\x0c\0\x01\0\x01\0\0\0\x3c\0\x04\xc0\0\x02\x01";

/// The reply with this identifier.
pub fn reply_to(id: u16) -> [u8; 40] {
    let mut reply = REPLY;
    let [high, low] = id.to_be_bytes();
    reply[0] = high;
    reply[1] = low;
    reply
}

/// How many callbacks were called.
pub fn count_of(calls: &Calls) -> u64 {
    let mut count: u64 = 0;
    for _ in calls.iter() {
        count = count.wrapping_add(1);
    }
    count
}
