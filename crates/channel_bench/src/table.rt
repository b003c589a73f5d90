//! A channel with one owner, asked again and again with so many requests in flight.

mod asking;

use crate::failed::Failed;
use crate::requests::channel;
use crate::words::number_of;
use asking::{answered, pending};
use channel_journal::{ChannelJournal, KeptJournal, UntoldJournal};
use std::alloc::Global;

/// One server (resolv.conf(5)).
const RESOLV: &[u8] = b"nameserver 192.0.2.53\n";

/// The requests on a channel over this kind of journal.
fn run<J: ChannelJournal>(
    alloc: Global,
    window: u64,
    replies: Option<u64>,
) -> Result<(u64, u64), Failed> {
    let desk = &mut channel::<J>(alloc, RESOLV)?;
    match replies {
        Some(replies) => answered(desk, alloc, window, replies),
        None => pending(desk, alloc, window),
    }
}

// How many requests are in flight, and how many of them are answered, each by a reply, with a new one behind it. With no
// number of replies the requests are only accepted. A third word makes the journal one that isn't kept.
pub fn measure(alloc: Global, words: &[String]) -> Result<String, Failed> {
    let window = number_of(words, 0).unwrap_or(100);
    let replies = number_of(words, 1);
    let (taken, waiting) = match words.get(2) {
        None => run::<KeptJournal>(alloc, window, replies)?,
        Some(_) => run::<UntoldJournal>(alloc, window, replies)?,
    };
    Ok(format!(in alloc; "{taken} requests answered, {waiting} waiting")?)
}
