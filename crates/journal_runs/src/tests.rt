//! The same calls on a channel that keeps its journal and on one that doesn't: both answer the same.

use chan_types::{Bytes, NoMemory, Quiet, Spec};
use channel_journal::{ChannelJournal, KeptJournal, UntoldJournal};
use channel_model::{Begun, Desk, Landed};
use channel_table::Alone;
use dns_message::numbers::{CLASS_IN, KIND_A};
use hosts_file::Hosts;
use resolv_options::Options;
use std::alloc::Global;
use std::test::Fail;

/// The reply 192.0.2.1 to the query for the addresses of IPv4 of `x.test.`, with identifier 0 (RFC 1035, section 4.1).
const REPLY: &[u8] =
    b"\0\0\x81\x80\0\x01\0\x01\0\0\0\0\x01x\x04test\0\0\x01\0\x01\xc0\x0c\0\x01\0\x01\0\0\0\x3c\0\x04\xc0\0\x02\x01";

/// The addresses of IPv4 that `x.test.` has.
fn query(alloc: Global) -> Result<Spec, NoMemory> {
    Ok(Spec::Query {
        name: Bytes::of(alloc, b"x.test.")?,
        kind: KIND_A,
        class: CLASS_IN,
    })
}

/// A channel with the default options and no hosts.
fn channel<J: ChannelJournal>(alloc: Global) -> Result<Alone<Quiet, J>, NoMemory> {
    Alone::make(alloc, Options::plain(alloc)?, Hosts::empty(alloc))
}

/// Whether a request for these addresses is accepted as this number.
fn is_accepted<J: ChannelJournal>(
    alloc: Global,
    desk: &mut Alone<Quiet, J>,
    number: u64,
) -> Result<bool, NoMemory> {
    Ok(match desk.accept(query(alloc)?, Quiet::new(alloc)) {
        Ok(given) => given == number,
        Err(_) => false,
    })
}

/// Whether an attempt begins, with identifier 0.
fn is_begun<J: ChannelJournal>(desk: &mut Alone<Quiet, J>) -> Result<bool, NoMemory> {
    Ok(match desk.start(0, 0, 0)? {
        Begun::Started { id, .. } => id == 0,
        Begun::Idle | Begun::NoId => false,
    })
}

/// Whether these bytes of the first server answer the leg 0 of a request, or are a stray where that is 0.
fn lands_on<J: ChannelJournal>(
    desk: &mut Alone<Quiet, J>,
    bytes: &[u8],
    request: u64,
) -> Result<bool, NoMemory> {
    Ok(match desk.arrive(0, 0, bytes)? {
        Landed::Matched { number, leg } => number == request && leg == 0,
        Landed::Stray => request == 0,
    })
}

/// The number of the ready request that is taken and the code of its status, or none.
fn taken<J: ChannelJournal>(desk: &mut Alone<Quiet, J>) -> Option<(u64, u8)> {
    let ticket = desk.take()?;
    Some((ticket.number(), ticket.answer().status.code()))
}

/// Whether a channel answers as it should: a request is answered behind a stray, a second one is cancelled, and the
/// channel is destroyed.
fn answers<J: ChannelJournal>(alloc: Global, desk: &mut Alone<Quiet, J>) -> Result<bool, NoMemory> {
    let asks = is_accepted(alloc, desk, 1)? && is_begun(desk)?;
    let lands = lands_on(desk, b"", 0)? && lands_on(desk, REPLY, 1)?;
    let told = taken(desk);
    let asks_again = is_accepted(alloc, desk, 2)?;
    let cancels = desk.cancel() == 1 && desk.cancel() == 0;
    let told_again = taken(desk);
    let destroys = desk.destroy() && !desk.destroy() && taken(desk).is_none();
    Ok(
        asks && lands
            && told == Some((1, 0))
            && asks_again
            && cancels
            && told_again == Some((2, 24))
            && destroys,
    )
}

/// Whether it answers so, and how many entries its journal was told.
fn run<J: ChannelJournal>(alloc: Global) -> Result<(bool, u64), NoMemory> {
    let mut desk = channel::<J>(alloc)?;
    let answers = answers(alloc, &mut desk);
    let journal = desk.close();
    Ok((answers?, journal.count()))
}

// Two Accepts, a Start, two Arrives, a Cancel, two Takes and a Destroy: a second cancel or destroy and an empty take make
// no entry.
#[test]
fn both_journals_serve_a_channel(rt: HostRuntime) -> Result<(), Fail> {
    assert_eq!(rt; run::<KeptJournal>(rt.alloc())?, (true, 9));
    assert_eq!(rt; run::<UntoldJournal>(rt.alloc())?, (true, 9));
    Ok(())
}
