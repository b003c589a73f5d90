//! Each call of the network fails in turn.

use super::failures::{failures_in, faults_in};
use super::outside::{Outside, outside_of};
use super::{LINE, PAGE, SILENT, WAIT_FAULT, is_put, played};
use scenario::is_called_once;
use std::alloc::Global;
use std::test::Fail;

/// The number of the network's call that fails, from 0; the exit status; and how many faults the journal has.
type Row = (u64, u8, u64);

/// A run on which nothing fails makes 25 calls. A serve, a clock, a word and a close can't fail.
///
/// The receive that is to bring the truncated reply fails the attempt over UDP, and the reply is a stray then; behind a failed
/// connect or write a further link is opened, and the reply comes over the first. Those runs end with silence, status 1. Every
/// other failure of a send or a receive leaves its fault, and the reply is printed all the same.
const ROWS: &[Row] = &[
    // The server is told; and the first turn: clock, receive, word, send, and the word for a further attempt.
    (0, 0, 0),
    (1, 0, 0),
    (2, 0, 1),
    (3, 0, 0),
    (4, 0, 1),
    (5, 0, 0),
    // The wait, and the second turn: clock, the truncated reply, a receive, word, connect, word, write.
    (6, 6, 0),
    (7, 0, 0),
    (8, 1, 1),
    (9, 0, 1),
    (10, 0, 0),
    (11, 1, 1),
    (12, 0, 0),
    (13, 1, 1),
    // The wait, and the third turn: clock, the first piece, a receive, word.
    (14, 6, 0),
    (15, 0, 0),
    (16, 0, 1),
    (17, 0, 1),
    (18, 0, 0),
    // The wait, and the fourth turn: clock, the second piece, a receive, word, close.
    (19, 6, 0),
    (20, 0, 0),
    (21, 0, 1),
    (22, 0, 1),
    (23, 0, 0),
    (24, 0, 0),
    // No such call is made.
    (25, 0, 0),
];

/// The number of the first call whose failure leaves something else, or how many rows there are.
fn first_wrong(alloc: Global, rows: &[Row]) -> Result<u64, Fail> {
    for row in rows {
        if !leaves(alloc, *row)? {
            return Ok(row.0);
        }
    }
    Ok(rows.len() as u64)
}

/// Whether a run whose call of this number fails leaves this.
fn leaves(alloc: Global, row: Row) -> Result<bool, Fail> {
    leaves_in(alloc, row, &mut outside_of(alloc, &[row.0])?)
}

/// The same of a run that is lent this: by its status and what it put; each failure is one fault; and what was accepted is
/// called once.
fn leaves_in(alloc: Global, row: Row, outside: &mut Outside) -> Result<bool, Fail> {
    let (_, status, faults) = row;
    let ended = played(alloc, LINE, outside)?;
    Ok(
        ended.status == status
            && is_put(outside, text_of(status))
            && faults_in(ended.journal.entries()) == faults
            && failures_in(outside.world.log().calls()) == faults
            && is_called_once(ended.journal.entries(), &ended.calls),
    )
}

/// What is put with a status.
fn text_of(status: u8) -> &'static str {
    match status {
        0 => PAGE,
        1 => SILENT,
        _ => WAIT_FAULT,
    }
}

#[test]
fn each_failing_call_leaves_one_fault(rt: HostRuntime) -> Result<(), Fail> {
    assert_eq!(rt; first_wrong(rt.alloc(), ROWS)?, 26);
    Ok(())
}
