//! Runs that check nothing: their words, their file, or their output don't let them.

use super::books::ONION;
use super::{RUN, Row, first_wrong};
use std::test::Fail;

/// Words that aren't one path.
const REFUSED: Row<'static> = Row {
    file: Some(ONION),
    status: 2,
    put: "areplay: usage\n",
    ..RUN
};

/// A file that is no run's text.
const BAD: Row<'static> = Row {
    status: 8,
    put: "areplay: bad book\n",
    ..RUN
};

/// A file that can't be read.
const UNREAD: Row<'static> = Row {
    status: 3,
    put: "areplay: file fault\n",
    ..RUN
};

/// A read that fails, a file that isn't there, a put that fails, an empty file, another version of the format, and a text
/// without its end.
const ROWS: [Row<'static>; 10] = [
    Row {
        words: &[],
        ..REFUSED
    },
    Row {
        words: &[""],
        ..REFUSED
    },
    Row {
        words: &["run.txt", "run.txt"],
        ..REFUSED
    },
    Row {
        words: &["", "run.txt"],
        ..REFUSED
    },
    Row {
        file: Some(ONION),
        fails: (&[0], &[]),
        ..UNREAD
    },
    UNREAD,
    Row {
        file: Some(ONION),
        fails: (&[], &[0]),
        status: 4,
        ..RUN
    },
    Row {
        file: Some(b""),
        ..BAD
    },
    Row {
        file: Some(b"journal 2\n"),
        ..BAD
    },
    Row {
        file: Some(b"journal 1\noption 2000 3 1 0 00000010 0 0 1232\nhosts -\n"),
        ..BAD
    },
];

#[test]
fn other_ends(rt: HostRuntime) -> Result<(), Fail> {
    assert_eq!(rt; first_wrong(rt.alloc(), &ROWS)?, None);
    Ok(())
}
