//! All identifiers in flight at once.

use super::PLAIN;
use super::addresses::{ASKED_V4, RECORD_V4};
use super::calls::{Call, Request, answers_so, channel, spec_of};
use super::making::{Move, Moved, accepted, make_move};
use chan_types::Quiet;
use channel_model::Begun;
use channel_table::Alone;
use std::alloc::Global;
use std::test::Fail;

/// How many requests there are: two more than there are identifiers (RFC 1035, section 4.1.1).
const REQUESTS: u64 = 65_538;

/// Begins an attempt with an identifier from this word upwards. Answers whether one was begun.
fn is_begun(desk: &mut Alone<Quiet>, word: u16) -> Result<bool, Fail> {
    Ok(match make_move(desk, Move::Start(word, 0))? {
        Moved::Begun(Begun::Started { .. }) => true,
        _ => false,
    })
}

/// Asks one request.
fn ask(alloc: Global, desk: &mut Alone<Quiet>) -> Result<(), Fail> {
    let spec = spec_of(alloc, Request::Query(b"a.test"))?;
    let _number = accepted(desk, spec, Quiet::new(alloc))?.is_ok();
    Ok(())
}

/// Accepts the requests, and begins attempts with the words 0, 1 and so on while they begin. Answers how many did.
fn begun_in(alloc: Global, desk: &mut Alone<Quiet>) -> Result<u64, Fail> {
    for _ in 0..REQUESTS {
        ask(alloc, desk)?;
    }
    for word in 0..REQUESTS {
        if !is_begun(desk, (word % 65_536) as u16)? {
            return Ok(word);
        }
    }
    Ok(REQUESTS)
}

/// The next start finds none and does nothing; a reply to the first attempt gives its identifier back.
const BEHIND: &[Call<'static>] = &[
    Call::Start(0, 0),
    Call::Reply(0, 0, ASKED_V4, &[RECORD_V4]),
    Call::Start(0, 0),
    Call::Look,
    Call::Cancel,
];

/// What the channel answers then.
const LINES: &str = "no identifier
matched 1 leg 0
start 65537 leg 0 on 0 over 0 as 0
pending 65537 ready 1 waiting 1 flying 65536 due 2000 busy 1
cancelled 65537
";

/// How many attempts begin, and whether the channel then answers so.
fn begun_and_answered(alloc: Global, desk: &mut Alone<Quiet>) -> Result<(u64, bool), Fail> {
    let begun = begun_in(alloc, desk)?;
    Ok((begun, answers_so(alloc, desk, BEHIND, LINES)?))
}

/// How many entries the journal of a channel has.
fn entries_of(desk: Alone<Quiet>) -> usize {
    desk.close().entries.len()
}

/// How many attempts begin, whether the channel then answers so, and how many entries its journal has.
fn in_flight_at_once(alloc: Global) -> Result<(u64, bool, usize), Fail> {
    let mut desk = channel(alloc, PLAIN)?;
    let told = begun_and_answered(alloc, &mut desk);
    let entries = entries_of(desk);
    let (begun, answered) = told?;
    Ok((begun, answered, entries))
}

/// The journal has an entry for each request, for each attempt, and for the reply and the cancel.
#[test]
fn an_identifier_comes_back_where_all_are_in_flight(rt: HostRuntime) -> Result<(), Fail> {
    assert!(rt; in_flight_at_once(rt.alloc())? == (65_536, true, 65_538 + 65_537 + 2));
    Ok(())
}
