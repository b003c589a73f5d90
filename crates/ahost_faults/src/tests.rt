//! A run as plain data, and what it leaves.

mod bodies;
mod failing;
mod outside;
mod wanting;

use ahost_tool::{Ended, run};
use bodies::{Deed, bodies_of};
use outside::Outside;
use scenario::words_of;
use std::alloc::Global;
use std::test::Fail;

/// A run: its words, parted by blanks; the datagrams that come of its server at moment 1, one behind the other; what the
/// callback of each name commands; and which reads and puts fail, by their numbers from 0. There are no files.
#[derive(Clone, Copy)]
struct Scenario {
    line: &'static str,
    replies: &'static [&'static [u8]],
    deeds: &'static [&'static [Deed]],
    read_fails: &'static [u64],
    put_fails: &'static [u64],
}

/// An address is asked for, which completes at once, and its callback asks for the names of the address: one comes (RFC 1035,
/// sections 3.3.12 and 4.1).
const FOLLOWED: Scenario = Scenario {
    line: "--server 192.0.2.53 --no-edns --follow 192.0.2.1",
    replies: &[
        b"\x12\x34\x81\x80\0\x01\0\x01\0\0\0\0\x011\x012\x010\x03192\x07in-addr\x04arpa\0\0\x0c\0\x01\xc0\x0c\0\x0c\0\x01\0\0\0\x3c\0\x0b\x04host\x04test\0",
    ],
    deeds: &[&[Deed::Follow]],
    read_fails: &[],
    put_fails: &[],
};

/// Its page.
const FOLLOWED_PAGE: &str = "192.0.2.1 0 SUCCESS
  192.0.2.1
  192.0.2.1 0 SUCCESS
    1.2.0.192.in-addr.arpa. 60 IN PTR host.test.
";

/// Plays a run, of a thousand turns at most.
fn played(alloc: Global, scenario: &Scenario, outside: &mut Outside) -> Result<Ended, Fail> {
    let words = words_of(alloc, scenario.line)?;
    let bodies = bodies_of(alloc, scenario.deeds)?;
    let Outside { files, world, sink } = outside;
    Ok(run(alloc, words.as_slice(), bodies, files, world, sink, 1000))
}

/// Whether this was put.
fn is_put(outside: &Outside, text: &str) -> bool {
    outside.sink.bytes() == text.as_bytes()
}
