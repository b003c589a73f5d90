//! One run over a network in memory, whose first reply is truncated, so that the question is asked again over a link: what it
//! leaves where one call fails.

mod failing;
mod failures;
mod in_turn;
mod outside;
mod wanting;

use adig_tool::{Ended, run};
use net_world::{MemFiles, MemSink, ScriptWorld};
use outside::Outside;
use scenario::{Coming, words_of};
use std::alloc::Global;
use std::test::Fail;

/// The words of the run.
const LINE: &str = "--server 192.0.2.53 --no-edns example.com";

/// The same with one attempt.
const LINE_TRIED_ONCE: &str = "--server 192.0.2.53 --no-edns --tries 1 example.com";

/// What comes: at moment 1 a reply with TC (RFC 1035, section 4.1.1), and over the first link the frame of the whole reply
/// (section 4.2.2), its first byte at moment 2 and all others at moment 3.
const COMINGS: &[Coming<'static>] = &[
    Coming::Datagram {
        from: 1,
        server: 0,
        bytes: b"\x12\x34\x83\x80\0\x01\0\0\0\0\0\0\x07example\x03com\0\0\x01\0\x01",
    },
    Coming::Piece {
        from: 2,
        link: 1,
        bytes: b"\0",
    },
    Coming::Piece {
        from: 3,
        link: 1,
        bytes: b"\x2d\x12\x34\x81\x80\0\x01\0\x01\0\0\0\0\x07example\x03com\0\0\x01\0\x01\xc0\x0c\0\x01\0\x01\0\0\x01\x2c\0\x04\xc0\0\x02\x01",
    },
];

/// The page of the whole reply.
const PAGE: &str = ";; example.com IN A
;; status 0 SUCCESS
;; id 4660 rcode 0 flags qr rd ra
;; ANSWER
example.com. 300 IN A 192.0.2.1
";

/// The page where the last attempt was silent.
const SILENT: &str = ";; example.com IN A\n;; status 12 ETIMEOUT\n";

/// The page where the last attempt failed.
const REFUSED: &str = ";; example.com IN A\n;; status 11 ECONNREFUSED\n";

/// The line in place of a page where a wait failed.
const WAIT_FAULT: &str = "adig: wait fault\n";

/// Plays a run with these words, of a thousand turns at most.
fn played(alloc: Global, line: &str, outside: &mut Outside) -> Result<Ended, Fail> {
    let words = words_of(alloc, line)?;
    let Outside { files, world, sink } = outside;
    Ok(ended(alloc, words.as_slice(), files, world, sink))
}

/// How a run ends.
fn ended(
    alloc: Global,
    words: &[&str],
    files: &mut MemFiles,
    world: &mut ScriptWorld,
    sink: &mut MemSink,
) -> Ended {
    run(alloc, words, files, world, sink, 1000)
}

/// Whether this was put.
fn is_put(outside: &Outside, text: &str) -> bool {
    outside.sink.bytes() == text.as_bytes()
}
