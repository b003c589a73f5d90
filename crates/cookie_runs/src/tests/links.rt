//! Calls of links, of the clock and of the random words go through as they are.

use super::messages::QUERY;
use super::playing::{Step, play};
use scenario::Coming;
use std::alloc::Global;
use std::test::Fail;

/// A query over TCP, and what comes of it.
const COMINGS: &[Coming<'static>] = &[
    Coming::Piece {
        from: 3,
        link: 1,
        bytes: b"\0\x02ab",
    },
    Coming::End { from: 3, link: 1 },
];

const STEPS: &[Step<'static>] = &[
    Step::Serve(0),
    Step::Connect(0, 1),
    Step::Write(1, QUERY),
    Step::Wait(5),
    Step::Now,
    Step::Word,
    Step::Receive,
    Step::Receive,
    Step::Close(1),
    Step::Receive,
];

const CALLS: &str =
    "serve 0\nconnect 0 1 sent\nwrite 1 40 of 40\nwait 5 woken\nnow 3\nword 4370\npiece 1 4\nended 1\nclose 1\nnothing\n";

/// Whether both sides tell the same calls, and the query is sent as it is.
fn is_untouched(alloc: Global) -> Result<bool, Fail> {
    let played = play(alloc, COMINGS, &[], STEPS)?;
    Ok(
        played.outer.as_str() == CALLS
            && played.inner.as_str().ends_with(CALLS)
            && played.sent.as_slice() == QUERY,
    )
}

/// A query over TCP carries no cookie, and its pieces are handed on. They come at 3, when a wait until 5 ends, and the word is
/// the first behind the four of the client cookie.
#[test]
fn links_are_untouched(rt: HostRuntime) -> Result<(), Fail> {
    assert!(rt; is_untouched(rt.alloc())?);
    Ok(())
}
