//! Lines and words, as tables.

use std::alloc::Global;
use std::test::Fail;
use text_lines::{before_comment, lines_in, read_name, read_names, words_before_comment, words_in};

/// The words of these lists, with `|` behind each.
fn joined(alloc: Global, words: &[&[u8]]) -> Result<Vec<u8>, Fail> {
    let mut text = Vec::new(alloc);
    for word in words {
        text.extend_from_slice(word)?;
        text.push(b'|')?;
    }
    Ok(text)
}

/// A text with CR, an empty line and no LF at its end, by hand after resolv.conf(5) and hosts(5).
#[test]
fn a_text_has_lines(rt: HostRuntime) -> Result<(), Fail> {
    let alloc = rt.alloc();
    let found: Vec<&[u8]> = lines_in(b"one\r\n\n two").collect(alloc)?;
    assert_eq!(rt;
        joined(alloc, found.as_slice())?.as_slice(),
        b"one\r|| two|".as_slice()
    );
    Ok(())
}

/// A line, its words, and those before a comment.
const WORDS: [(&str, &str, &str); 5] = [
    ("  a\tb  c\r", "a|b|c|", "a|b|c|"),
    ("a #b c", "a|#b|c|", "a|"),
    ("a b#c ;d", "a|b#c|;d|", "a|b#c|"),
    (";a", ";a|", ""),
    ("", "", ""),
];

/// Whether a line has these words, and these before a comment.
fn has_words(alloc: Global, line: &str, all: &str, kept: &str) -> Result<bool, Fail> {
    let found = words_in(alloc, line.as_bytes())?;
    let before = words_before_comment(alloc, line.as_bytes())?;
    Ok(
        joined(alloc, found.as_slice())?.as_slice() == all.as_bytes()
            && joined(alloc, before.as_slice())?.as_slice() == kept.as_bytes(),
    )
}

#[test]
fn a_line_has_words(rt: HostRuntime) -> Result<(), Fail> {
    for (line, all, kept) in WORDS.iter() {
        assert!(rt; has_words(rt.alloc(), line, all, kept)?);
    }
    assert_eq!(rt; before_comment(b"a b#c ;d"), b"a b".as_slice());
    Ok(())
}

/// Words that aren't names, one for each fault: an empty label, a backslash at the end, a label of 64 bytes, and labels that
/// take 256 bytes (RFC 1035, sections 2.3.4 and 5.1).
const NO_NAMES: [&[u8]; 4] = [
    b"a..b",
    b"a\\",
    b"aaaaaaaaaaaaaaaaaaaaaaaaaaaaaaaaaaaaaaaaaaaaaaaaaaaaaaaaaaaaaaaa",
    b"aaaaaaaaaaaaaaaaaaaaaaaaaaaaaaaaaaaaaaaaaaaaaaaaaaaaaaaaaaaaaaa.aaaaaaaaaaaaaaaaaaaaaaaaaaaaaaaaaaaaaaaaaaaaaaaaaaaaaaaaaaaaaaa.aaaaaaaaaaaaaaaaaaaaaaaaaaaaaaaaaaaaaaaaaaaaaaaaaaaaaaaaaaaaaaa.aaaaaaaaaaaaaaaaaaaaaaaaaaaaaaaaaaaaaaaaaaaaaaaaaaaaaaaaaaaaaa",
];

#[test]
fn words_are_names(rt: HostRuntime) -> Result<(), Fail> {
    let alloc = rt.alloc();
    assert!(rt; read_name(alloc, b"B.")?.is_some());
    for word in NO_NAMES.iter() {
        assert!(rt; read_name(alloc, *word)?.is_none());
    }
    let names = read_names(
        alloc,
        &[b"a.test".as_slice(), b"a..b".as_slice(), b"B.".as_slice()],
    )?;
    assert_eq!(rt; names.len(), 2);
    for name in names.as_slice() {
        assert!(rt; name.labels() > 0);
    }
    Ok(())
}
