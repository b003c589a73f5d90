//! Texts that are no run's, each with the line at which it is refused.

use chan_types::Bytes;
use journal_text::{BookFault, read_book};
use std::alloc::Global;
use std::test::Fail;

/// The lines of a run.
const GOOD: [&[u8]; 8] = [
    b"journal 1",
    b"option 2000 3 1 0 00000010 0 0 1232",
    b"server 192.0.2.53 53",
    b"hosts -",
    b"0 0 accept 1 q 782e6f6e696f6e 1 1 ( 0 )",
    b"0 0 start 1 0 0 0 1 - 0",
    b"0 0 arrive 0 0 0a",
    b"end",
];

/// A line of the run, what stands in its place, and the first bad line of that text.
const REPLACED: [(usize, &[u8], u64); 69] = [
    // another version, a blank too much, blanks around, no blank
    (0, b"journal 2", 1),
    (0, b"journal  1", 1),
    (0, b" journal 1", 1),
    (0, b"journal 1 ", 1),
    (0, b"journal1", 1),
    (0, b"Journal 1", 1),
    (0, b"", 1),
    // a leading zero, a sign, a field too few, one too many
    (1, b"option 02000 3 1 0 00000010 0 0 1232", 2),
    (1, b"option +2000 3 1 0 00000010 0 0 1232", 2),
    (1, b"option 2000 3 1 0 00000010 0 0", 2),
    (1, b"option 2000 3 1 0 00000010 0 0 1232 0", 2),
    // each number above or below its limits
    (1, b"option 0 3 1 0 00000010 0 0 1232", 2),
    (1, b"option 60001 3 1 0 00000010 0 0 1232", 2),
    (1, b"option 2000 0 1 0 00000010 0 0 1232", 2),
    (1, b"option 2000 11 1 0 00000010 0 0 1232", 2),
    (1, b"option 2000 3 16 0 00000010 0 0 1232", 2),
    (1, b"option 2000 3 1 3600001 00000010 0 0 1232", 2),
    (1, b"option 2000 3 1 0 00000010 2 0 1232", 2),
    (1, b"option 2000 3 1 0 00000010 0 3 1232", 2),
    (1, b"option 2000 3 1 0 00000010 0 0 511", 2),
    (1, b"option 2000 3 1 0 00000010 0 0 65536", 2),
    // switches: seven digits, nine digits, another digit
    (1, b"option 2000 3 1 0 0000001 0 0 1232", 2),
    (1, b"option 2000 3 1 0 000000100 0 0 1232", 2),
    (1, b"option 2000 3 1 0 00000020 0 0 1232", 2),
    // lines in another order
    (1, b"server 192.0.2.53 53", 2),
    (2, b"domain example.com.", 3),
    (2, b"hosts -", 3),
    (3, b"end", 4),
    (3, b"0 0 cancel", 4),
    (3, b"journal 1", 4),
    (3, b"option 2000 3 1 0 00000010 0 0 1232", 4),
    // addresses and names that aren't as they are printed
    (2, b"server 192.0.2.053 53", 3),
    (2, b"server 2001:DB8::53 53", 3),
    (2, b"server 2001:db8:0::53 53", 3),
    (2, b"server 192.0.2.53 65536", 3),
    (3, b"domain example.com", 4),
    (3, b"domain a\\099.", 4),
    (3, b"domain a..", 4),
    (3, b"source 192.0.2.1 53", 4),
    // bytes: upper case, an odd digit, nothing, no digit; CR
    (3, b"hosts 0A", 4),
    (3, b"hosts 0a0", 4),
    (3, b"hosts ", 4),
    (3, b"hosts", 4),
    (3, b"hosts --", 4),
    (3, b"hosts -\r", 4),
    // entries: numbers above their widths, unknown kinds, fields in another number
    (4, b"18446744073709551616 0 accept 1 q 78 1 1 ( 0 )", 5),
    (4, b"00 0 accept 1 q 78 1 1 ( 0 )", 5),
    (4, b"0 0 accept 1 q 78 65536 1 ( 0 )", 5),
    (4, b"0 0 accept 1 x 78 1 1 ( 0 )", 5),
    (4, b"0 0 accept 1 a 78 3 0 ( 0 )", 5),
    (4, b"0 0 accept 1 q 78 1 1 ( 0", 5),
    (4, b"0 0 accept 1 q 78 1 1 ( 0 ) )", 5),
    (4, b"0 0 accept 1 q 78 1 1 ( 0 3 0 cancel )", 5),
    (4, b"0 0 accept 1 q 78 1 1 ( 0 0 4 cancel )", 5),
    (5, b"0 0 start 1 256 0 0 1 - 0", 6),
    (5, b"0 0 start 1 0 4294967296 0 1 - 0", 6),
    (5, b"0 0 start 1 0 0 0 65536 - 0", 6),
    (5, b"0 0 start 1 0 0 0 1 65536 0", 6),
    (4, b"0 18446744073709551616 cancel", 5),
    (6, b"0 0 take 18446744073709551616", 7),
    (6, b"0 0 accept 1 q 78 1 1 ( 18446744073709551616 )", 7),
    (6, b"0 0 arrive 0 18446744073709551616 -", 7),
    (6, b"0 0 expire 1 0 18446744073709551616", 7),
    (6, b"0 0 fault 4294967296 1 0", 7),
    (6, b"0 0 servers 4294967296 192.0.2.53 53", 7),
    (6, b"0 0 servers 0 192.0.2.53", 7),
    (6, b"0 0 taken 1", 7),
    (6, b"server 192.0.2.53 53", 7),
    (7, b"end ", 8),
];

/// The text of the first of these lines, so many.
fn text_of(alloc: Global, lines: &[&[u8]], count: usize) -> Result<Vec<u8>, Fail> {
    let mut text = Vec::new(alloc);
    for line in lines.iter().take(count) {
        text.extend_from_slice(line)?;
        text.push(b'\n')?;
    }
    Ok(text)
}

/// The first bad line of a text, or 0 where it is read.
fn bad_line(alloc: Global, text: &[u8]) -> Result<u64, Fail> {
    match read_book(alloc, text) {
        Ok(_) => Ok(0),
        Err(BookFault::BadLine(line)) => Ok(line),
        Err(_) => Err("another fault".into()),
    }
}

/// The first bad line of the run with this line in the place of the one at an index.
fn bad_line_with(alloc: Global, at: usize, line: &[u8]) -> Result<u64, Fail> {
    let mut lines = GOOD;
    if at < 8 {
        lines[at] = line;
    }
    let text = text_of(alloc, &lines, lines.len())?;
    bad_line(alloc, text.as_slice())
}

#[test]
fn each_kind_of_bad_line(rt: HostRuntime) -> Result<(), Fail> {
    assert!(rt; bad_line_with(rt.alloc(), 0, GOOD[0])? == 0);
    for (at, line, bad) in REPLACED.iter() {
        assert!(rt; bad_line_with(rt.alloc(), *at, line)? == *bad);
    }
    Ok(())
}

/// How many lines of the run stand, how many bytes are cut off behind them, what stands there, and the first bad line: texts
/// that end too early, and texts with something behind their last LF.
const ENDED: [(usize, usize, &[u8], u64); 12] = [
    (0, 0, b"", 1),
    (1, 0, b"", 2),
    (2, 0, b"", 3),
    (3, 0, b"", 4),
    (4, 0, b"", 5),
    (5, 0, b"", 6),
    (6, 0, b"", 7),
    (7, 0, b"", 8),
    (8, 1, b"", 8),
    (8, 3, b"", 8),
    (8, 0, b"\n", 9),
    (8, 0, b"x", 9),
];

/// The run that asks for a name below `onion`, without its last line.
const UNENDED: &[u8] = b"journal 1\n\
    option 2000 3 1 0 00000010 0 0 1232\n\
    server 192.0.2.53 53\n\
    hosts -\n\
    0 0 accept 1 q 782e6f6e696f6e 1 1 ( 0 )\n\
    0 0 take 1\n\
    0 0 destroy\n";

/// The first bad line of so many lines of the run, with so many bytes cut off and these behind them.
fn bad_line_ended(alloc: Global, lines: usize, cut: usize, behind: &[u8]) -> Result<u64, Fail> {
    let mut text = text_of(alloc, &GOOD, lines)?;
    text.truncate(text.len().saturating_sub(cut));
    text.extend_from_slice(behind)?;
    bad_line(alloc, text.as_slice())
}

#[test]
fn texts_that_end_elsewhere(rt: HostRuntime) -> Result<(), Fail> {
    for (lines, cut, behind, bad) in ENDED.iter() {
        assert!(rt; bad_line_ended(rt.alloc(), *lines, *cut, behind)? == *bad);
    }
    assert!(rt; bad_line(rt.alloc(), UNENDED)? == 8);
    Ok(())
}

/// A script with so many steps.
fn many_steps(alloc: Global, count: u64) -> Result<Bytes, Fail> {
    let mut line = Vec::from_slice(alloc, b"0 0 accept 1 q 78 1 1 ( 0")?;
    for _ in 0..count {
        line.extend_from_slice(b" 0 0 cancel")?;
    }
    line.extend_from_slice(b" )")?;
    Ok(Bytes::from_vec(line))
}

/// Scripts that nest so deep.
fn deep_scripts(alloc: Global, deep: u64) -> Result<Bytes, Fail> {
    let mut line = Vec::from_slice(alloc, b"0 0 accept 1 q 78 1 1 ( 0")?;
    for _ in 1..deep {
        line.extend_from_slice(b" 0 0 rev ( 0")?;
    }
    for _ in 0..deep {
        line.extend_from_slice(b" )")?;
    }
    Ok(Bytes::from_vec(line))
}

// Eight steps and four scripts one in another are taken; nine steps and five scripts aren't.
#[test]
fn scripts_at_their_limits(rt: HostRuntime) -> Result<(), Fail> {
    let alloc = rt.alloc();
    for (count, bad) in [(8, 0), (9, 5)] {
        let line = many_steps(alloc, count)?;
        assert!(rt; bad_line_with(alloc, 4, line.as_slice())? == bad);
    }
    for (deep, bad) in [(4, 0), (5, 5)] {
        let line = deep_scripts(alloc, deep)?;
        assert!(rt; bad_line_with(alloc, 4, line.as_slice())? == bad);
    }
    Ok(())
}
