//! What C is answered with ample memory, and the text of a journal that was kept. A call's answer is a number of
//! `include/dachumvi.h`: 0 where it did what it is for.

use boxed_channel::{BoxedChannel, ChannelState, make};
use c_types::{ToldAttempt, ToldLeg, ToldRequest};
use std::alloc::Global;
use std::test::Fail;

/// The text of the run of `is_answered`, by docs/JOURNAL.md. What the resolv.conf doesn't set has its default, a request
/// of C's has no step, and the time of a message isn't said.
const TEXT: &[u8] = b"journal 1
option 2000 3 1 0 00000010 0 0 1232
server 192.0.2.53 53
hosts 3a3a3120610a
0 0 accept 1 q 782e746573742e 1 1 ( 0 )
0 0 start 1 0 0 0 7 - 100
0 0 arrive 0 0 -
0 0 arrive 0 0 000781800001000100000000017804746573740000010001c00c000100010000003c0004c0000201
0 0 take 1
end
";

/// The query for the addresses of IPv4 of `x.test.`, with identifier 7, recursion desired (RFC 1035, section 4.1) and an OPT
/// record that offers 1,232 bytes (RFC 6891, section 6.1.2).
const QUERY: &[u8] =
    b"\0\x07\x01\0\0\x01\0\0\0\0\0\x01\x01x\x04test\0\0\x01\0\x01\0\0\x29\x04\xd0\0\0\0\0\0\0";

/// Its reply: 192.0.2.1.
const REPLY: &[u8] =
    b"\0\x07\x81\x80\0\x01\0\x01\0\0\0\0\x01x\x04test\0\0\x01\0\x01\xc0\x0c\0\x01\0\x01\0\0\0\x3c\0\x04\xc0\0\x02\x01";

/// A channel with a server and a hosts file of one line, behind the word that C keeps: its drop is one of `boxed_channel`,
/// so that nothing of a channel is let go here.
fn made(alloc: Global, keeps: bool) -> Result<BoxedChannel, Fail> {
    match make(alloc, b"nameserver 192.0.2.53\n", b"::1 a\n", keeps) {
        Ok(boxed) => Ok(BoxedChannel::of(boxed)),
        Err(_) => Err(Fail::new("no channel")),
    }
}

// Each call of the channel stands in a function of its own, so that its clauses are seen there alone. The answer comes
// first, and what was written behind it.

fn query(state: &mut ChannelState) -> (u32, u64) {
    let mut number = 0;
    let answer = state.query(b"x.test.", 1, 1, &mut number);
    (answer, number)
}

fn search(state: &mut ChannelState) -> (u32, u64) {
    let mut number = 0;
    let answer = state.search(b"x.test.", 1, 1, &mut number);
    (answer, number)
}

fn address(state: &mut ChannelState, family: u32) -> (u32, u64) {
    let mut number = 0;
    let answer = state.address(b"a", family, false, &mut number);
    (answer, number)
}

fn reverse(state: &mut ChannelState, address: &[u8]) -> (u32, u64) {
    let mut number = 0;
    let answer = state.reverse(address, &mut number);
    (answer, number)
}

/// Begins an attempt with identifier 7: the request's number, the server's port, and how many bytes are to be sent.
fn start(state: &mut ChannelState, at: u64) -> (u32, u64, u16, usize) {
    let mut attempt = ToldAttempt {
        number: 0,
        link: 9,
        length: 0,
        server: 9,
        id: 0,
        port: 0,
        leg: 9,
    };
    let answer = state.start(7, 0, at, &mut attempt);
    (answer, attempt.number, attempt.port, attempt.length)
}

fn arrive(state: &mut ChannelState, message: &[u8]) -> (u32, u64) {
    let mut leg = ToldLeg { number: 0, leg: 9 };
    let answer = state.arrive(0, 0, message, &mut leg);
    (answer, leg.number)
}

fn expire(state: &mut ChannelState, at: u64) -> (u32, u64) {
    let mut leg = ToldLeg { number: 0, leg: 9 };
    let answer = state.expire(at, &mut leg);
    (answer, leg.number)
}

fn fault(state: &mut ChannelState, at: u64) -> (u32, u64) {
    let mut count = 0;
    let answer = state.fault(0, 0, at, &mut count);
    (answer, count)
}

fn next_due(state: &mut ChannelState) -> (u32, u64) {
    let mut due = 0;
    let answer = state.next_due(&mut due);
    (answer, due)
}

/// Takes a request: its number, and its status.
fn take(state: &mut ChannelState) -> (u32, u64, u8) {
    let mut request = ToldRequest {
        number: 0,
        message: 0,
        addresses: 0,
        status: 255,
    };
    let answer = state.take(&mut request);
    (answer, request.number, request.status)
}

/// Whether a call copies these bytes, and what stands behind them stays.
fn is_copied(state: &ChannelState, call: u32, wanted: &[u8]) -> bool {
    let mut out = [7; 64];
    let count = match call {
        0 => state.copy_bytes(&mut out),
        1 => state.copy_server(&mut out),
        2 => state.copy_message(&mut out),
        _ => state.copy_address(0, &mut out),
    };
    count == wanted.len() && out.starts_with(wanted) && out[63] == 7
}

/// Copies the journal's text over a buffer: how many bytes the text has.
fn copy_journal(state: &ChannelState, out: &mut [u8]) -> (u32, usize) {
    let mut size = 5;
    let answer = state.copy_journal(out, &mut size);
    (answer, size)
}

/// Whether the calls of a run answer as they should: a query is begun at the moment 100, an empty message is a stray, and
/// its reply completes it with success.
fn is_answered(state: &mut ChannelState) -> bool {
    query(state) == (0, 1)
        && start(state, 100) == (0, 1, 53, 35)
        && is_copied(state, 0, QUERY)
        && is_copied(state, 1, &[192, 0, 2, 53])
        && arrive(state, b"") == (3, 0)
        && arrive(state, REPLY) == (0, 1)
        && take(state) == (0, 1, 0)
        && is_copied(state, 2, REPLY)
}

// The text of a kept journal is that of what happened, over a large buffer, a small one and none.
#[test]
fn a_kept_journal_is_told(rt: HostRuntime) -> Result<(), Fail> {
    let mut word = made(rt.alloc(), true)?;
    assert!(rt; is_answered(word.state()));
    let (mut large, mut small) = ([7; 512], [7; 10]);
    assert!(rt; copy_journal(word.state(), &mut large) == (0, TEXT.len()));
    assert!(rt; large.starts_with(TEXT) && large[TEXT.len()] == 7);
    assert!(rt; copy_journal(word.state(), &mut small) == (0, TEXT.len()));
    assert!(rt; small.starts_with(b"journal 1\n"));
    assert!(rt; copy_journal(word.state(), &mut []) == (0, TEXT.len()));
    Ok(())
}

// The same calls answer the same where the journal isn't kept, but there is no text, and nothing is written.
#[test]
fn an_untold_journal_has_no_text(rt: HostRuntime) -> Result<(), Fail> {
    let mut word = made(rt.alloc(), false)?;
    assert!(rt; is_answered(word.state()));
    let mut out = [7; 4];
    assert!(rt; copy_journal(word.state(), &mut out) == (9, 5) && out.starts_with(&[7, 7, 7, 7]));
    Ok(())
}

/// Whether addresses and names are asked for, and a family that there isn't and an address of three bytes are refused.
fn is_asked(state: &mut ChannelState) -> bool {
    address(state, 6) == (0, 1)
        && take(state) == (0, 1, 0)
        && is_copied(state, 3, b"\0\0\0\0\0\0\0\0\0\0\0\0\0\0\0\x01")
        && address(state, 5) == (5, 0)
        && reverse(state, &[192, 0, 2]) == (6, 0)
        && reverse(state, &[192, 0, 2, 1]) == (0, 2)
        && state.cancel() == 1
        && take(state) == (0, 2, 24)
}

/// Whether an attempt expires when it is due, the next one fails with its link, and a channel that was destroyed accepts
/// nothing.
fn is_ended(state: &mut ChannelState) -> bool {
    search(state) == (0, 3)
        && start(state, 100) == (0, 3, 53, 35)
        && next_due(state) == (0, 2100)
        && expire(state, 2099) == (3, 0)
        && expire(state, 2100) == (0, 3)
        && start(state, 2100) == (0, 3, 53, 35)
        && fault(state, 2200) == (0, 1)
        && state.destroy()
        && take(state) == (0, 3, 16)
        && query(state) == (1, 0)
}

#[test]
fn each_call_is_answered(rt: HostRuntime) -> Result<(), Fail> {
    let mut word = made(rt.alloc(), false)?;
    assert!(rt; is_asked(word.state()));
    assert!(rt; is_ended(word.state()));
    Ok(())
}
