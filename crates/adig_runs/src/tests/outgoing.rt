//! What a run reads and puts: the resolv.conf of the words once, whole, and its text once; nothing else.

use super::outcome::outcome_in;
use super::outside::{Outside, outside_of};
use super::replies::{ANSWERED_RUN, PAGE};
use super::{RUN, Scenario};
use net_world::{FileRead, PutEnd};
use std::alloc::Global;
use std::test::Fail;

/// What a read gives.
#[derive(Clone, Copy)]
enum Given {
    Absent,
    Content(&'static [u8]),
    Failed,
}

/// A run, its one read, of 65,536 bytes at most, and its one put.
#[derive(Clone, Copy)]
struct Row {
    run: Scenario<'static>,
    path: &'static str,
    given: Given,
    text: &'static str,
    end: PutEnd,
}

/// Whether a run makes this read and this put, and no other.
fn makes(alloc: Global, row: &Row) -> Result<bool, Fail> {
    makes_in(alloc, row, &mut outside_of(alloc, &row.run)?)
}

/// The same of a run that is lent this.
fn makes_in(alloc: Global, row: &Row, outside: &mut Outside) -> Result<bool, Fail> {
    outcome_in(alloc, &row.run, outside)?;
    Ok(reads_once(outside, row.path, row.given) && puts_once(outside, row.text, row.end))
}

/// Whether this was read, and nothing else.
fn reads_once(outside: &Outside, path: &str, given: Given) -> bool {
    match outside.files.reads() {
        [call] => call.path.as_slice() == path.as_bytes()
            && call.most == 65_536
            && is_given(&call.read, given),
        _ => false,
    }
}

/// Whether a read gave this.
fn is_given(read: &FileRead, given: Given) -> bool {
    match (read, given) {
        (FileRead::Absent, Given::Absent) => true,
        (FileRead::Content(bytes), Given::Content(wanted)) => bytes.as_slice() == wanted,
        (FileRead::Failed, Given::Failed) => true,
        _ => false,
    }
}

/// Whether this was put, and nothing else, not even an empty text.
fn puts_once(outside: &Outside, text: &str, end: PutEnd) -> bool {
    match outside.sink.puts() {
        [call] => call.text.as_slice() == text.as_bytes() && call.end == end,
        _ => false,
    }
}

/// There is no file, and the page is put.
const ABSENT: Row = Row {
    run: ANSWERED_RUN,
    path: "/etc/resolv.conf",
    given: Given::Absent,
    text: PAGE,
    end: PutEnd::Done,
};

#[test]
fn an_absent_file_is_read_once(rt: HostRuntime) -> Result<(), Fail> {
    assert!(rt; makes(rt.alloc(), &ABSENT)?);
    Ok(())
}

/// The file is read whole, in one read; a domain has no effect on a name without `--search`.
const WHOLE: Row = Row {
    run: Scenario {
        resolv: Some(b"domain lan.test\n"),
        ..ANSWERED_RUN
    },
    given: Given::Content(b"domain lan.test\n"),
    ..ABSENT
};

#[test]
fn a_file_is_read_whole(rt: HostRuntime) -> Result<(), Fail> {
    assert!(rt; makes(rt.alloc(), &WHOLE)?);
    Ok(())
}

/// The file that the words name is read in place of `/etc/resolv.conf`.
const NAMED: Row = Row {
    run: Scenario {
        line: "--resolv other --server 192.0.2.53 --no-edns example.com",
        resolv: Some(b"domain lan.test\n"),
        ..ANSWERED_RUN
    },
    path: "other",
    ..ABSENT
};

#[test]
fn the_words_name_the_file(rt: HostRuntime) -> Result<(), Fail> {
    assert!(rt; makes(rt.alloc(), &NAMED)?);
    Ok(())
}

/// A read that fails isn't made again, and neither is a put: each stands there once, as failed.
const FAILED: Row = Row {
    run: Scenario {
        read_fails: &[0],
        put_fails: &[0],
        ..RUN
    },
    path: "/etc/resolv.conf",
    given: Given::Failed,
    text: "adig: file fault\n",
    end: PutEnd::Failed,
};

#[test]
fn what_fails_is_not_tried_again(rt: HostRuntime) -> Result<(), Fail> {
    assert!(rt; makes(rt.alloc(), &FAILED)?);
    Ok(())
}

/// A run without words.
const WORDLESS: Scenario<'static> = Scenario { line: "", ..RUN };

/// Whether a run without words reads nothing, and puts one line.
fn reads_nothing(alloc: Global, outside: &mut Outside) -> Result<bool, Fail> {
    outcome_in(alloc, &WORDLESS, outside)?;
    Ok(outside.files.reads().is_empty() && puts_once(outside, "adig: usage\n", PutEnd::Done))
}

/// Refused words read nothing, and put one line.
#[test]
fn refused_words_read_nothing(rt: HostRuntime) -> Result<(), Fail> {
    assert!(rt; reads_nothing(rt.alloc(), &mut outside_of(rt.alloc(), &WORDLESS)?)?);
    Ok(())
}
