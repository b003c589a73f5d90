//! Words and what they ask, files, pages and endings, with ample memory.

mod asks;
mod help;
mod pages;
mod refusals;

use net_addr::{Addr, Family};
use std::alloc::Global;
use std::test::Fail;
use tool_line::*;

/// The words of a command line: its parts between blanks. So an empty line is one empty word.
fn words_of(alloc: Global, line: &str) -> Result<Vec<&str>, Fail> {
    let mut words = Vec::new(alloc);
    for word in line.split(' ') {
        words.push(word)?;
    }
    Ok(words)
}

/// Words, the least number that they may be, and the number, by hand: decimal digits, no sign and no leading zero, up to
/// 65,535.
const NUMBERS: &[(&str, u32, Option<u32>)] = &[
    ("1", 1, Some(1)),
    ("65535", 1, Some(65535)),
    ("65536", 1, None),
    ("0", 1, None),
    ("0", 0, Some(0)),
    ("00", 0, None),
    ("053", 1, None),
    ("+5", 1, None),
    ("-5", 1, None),
    (" 5", 1, None),
    ("5x", 1, None),
    ("4294967301", 1, None),
    ("99999999999999999999999", 1, None),
    ("", 0, None),
];

/// The number of a word.
fn number_in(word: &str, least: u32) -> Option<u32> {
    number(word, least, 65535)
}

#[test]
fn numbers_are_read(rt: HostRuntime) {
    for (word, least, found) in NUMBERS {
        assert!(rt; number_in(word, *least) == *found, "{word}");
    }
}

/// An address of each family, and eight addresses.
const TWO_ADDRESSES: &[Addr] = &[
    Addr::V4(0xc000_0201),
    Addr::V6(0x2001_0db8_0000_0000_0000_0000_0000_0001),
];

const EIGHT_ADDRESSES: &[Addr] = &[Addr::V4(0x0101_0101); 8];

/// Whether a word has these addresses.
fn reads_addresses(alloc: Global, word: &str, found: &[Addr]) -> Result<bool, WordFault> {
    Ok(addresses(alloc, word.as_bytes())?.as_slice() == found)
}

#[test]
fn addresses_are_read(rt: HostRuntime) -> Result<(), Fail> {
    let alloc = rt.alloc();
    assert!(rt; reads_addresses(alloc, "192.0.2.1,2001:db8::1", TWO_ADDRESSES)?);
    let eight = "1.1.1.1,1.1.1.1,1.1.1.1,1.1.1.1,1.1.1.1,1.1.1.1,1.1.1.1,1.1.1.1";
    assert!(rt; reads_addresses(alloc, eight, EIGHT_ADDRESSES)?);
    Ok(())
}

/// Words and the families that they name.
const FAMILIES: &[(&str, Option<Family>)] = &[
    ("any", Some(Family::Any)),
    ("4", Some(Family::V4)),
    ("6", Some(Family::V6)),
    ("ANY", None),
    ("", None),
];

#[test]
fn values_are_read(rt: HostRuntime) {
    assert!(rt; path("a") == Some("a") && path("").is_none());
    for (word, found) in FAMILIES {
        assert!(rt; family(word) == *found, "{word}");
    }
}

/// An ending, its exit status, and the texts that stand in place of a page.
type Ending = (Exit, u8, Option<&'static str>, Option<&'static str>);

/// The exit statuses of this project.
const ENDINGS: &[Ending] = &[
    (Exit::Success, 0, None, None),
    (Exit::Failure, 1, None, None),
    (
        Exit::Usage,
        2,
        Some("adig: usage\n"),
        Some("ahost: usage\n"),
    ),
    (
        Exit::FileFault,
        3,
        Some("adig: file fault\n"),
        Some("ahost: file fault\n"),
    ),
    (Exit::SinkFault, 4, None, None),
    (Exit::OutOfMemory, 5, None, None),
    (
        Exit::WaitFault,
        6,
        Some("adig: wait fault\n"),
        Some("ahost: wait fault\n"),
    ),
    (
        Exit::Stalled,
        7,
        Some("adig: stalled\n"),
        Some("ahost: stalled\n"),
    ),
];

/// Whether it is so.
fn ends_so(ending: &Ending) -> bool {
    let (exit, number, adig, ahost) = *ending;
    exit.number() == number && exit.text(Tool::Adig) == adig && exit.text(Tool::Ahost) == ahost
}

#[test]
fn endings_have_numbers_and_texts(rt: HostRuntime) {
    for ending in ENDINGS {
        assert!(rt; ends_so(ending));
    }
}
